//! What the tables say of an instruction, whatever it computes.
ghost use Rattle.std.specs.Prelude.{◌≡◌, ◌⊎◌, ℕ, false, true, IsTrue, Some, None};
ghost use Rattle.rv32_table.specs.declared.instr.Instr.{Instr};
ghost use Rattle.rv32_table.specs.declared.instr.Kind.TheVariants as row;
ghost use Rattle.rv32_table.specs.Instr.{kind_of};
ghost use Rattle.xif_base.specs.Params.{IsInRange};
ghost use Rattle.xif_drive.specs.Predictors.{following};
ghost use Rattle.xif_image.specs.Region.{Region, word_at};
ghost use Rattle.coproc_config.specs.declared.accept.Hit.{Hit};
ghost use Rattle.coproc_config.specs.Accept.{entry_at, HasFlagsOf, IsAllowed};
ghost use Rattle.inorder_machine.specs.declared.line.Retire.{Retire};
ghost use Rattle.inorder_machine.specs.declared.line.Store.{Store};
ghost use Rattle.inorder_machine.specs.declared.line.Stepped.TheVariants.{Retired, Stop};
ghost use Rattle.inorder_machine.specs.declared.stop.StopCause.{StopCause};
ghost use Rattle.inorder_machine.specs.declared.units.Half.{Half};
ghost use Rattle.inorder_machine.specs.Execute.{At, cause_of, executed};
ghost use Rattle.inorder_machine.specs.Lines.{IsStore};
ghost use Rattle.inorder_machine.specs.Machine.{Extension, memory_after};
ghost use Rattle.inorder_machine.specs.Units.{is_read};
ghost use Rattle.cycle_spec.specs.declared.entry.Entry.{Entry};
ghost use Rattle.cycle_spec.specs.Flight.{is_store_row, is_control_row, stop_row};
ghost use Rattle.cycle_spec.specs.Choices.{has_half, is_hit};
ghost use Rattle.ahead_spec.specs.Operands.{word_hit};

/// An instruction that computes or orders accesses never stops, and ECALL and EBREAK always do.
/// Only a control transfer leads elsewhere than to the instruction behind it. Only a store changes
/// the memory, and within it (RISC-V Unprivileged ISA, sections 2.4 to 2.8).
pub fn a_row_does_what_its_kind_does()
    ensures plain { (m : Region) → (at : At) → (i : Instr) → (a b : ℕ) → (cause : StopCause)
        → (kind_of i ≡ row.Alu) ⊎ (kind_of i ≡ row.Fence)
        → ¬ (executed m at i a b ≡ Stop cause) }
    ensures stop { (m : Region) → (at : At) → (i : Instr) → (a b : ℕ) → (cause : StopCause)
        → stop_row (kind_of i) (cause_of i.row) ≡ Some cause → executed m at i a b ≡ Stop cause }
    ensures straight { (m : Region) → (at : At) → (i : Instr) → (a b : ℕ) → (l : Retire)
        → is_control_row (kind_of i) ≡ false
        → executed m at i a b ≡ Retired l → l.next ≡ following at.pc }
    ensures silent { (m : Region) → (at : At) → (i : Instr) → (a b : ℕ) → (l : Retire)
        → is_store_row (kind_of i) ≡ false
        → executed m at i a b ≡ Retired l → l.store ≡ None }
    ensures inside { (m : Region) → (at : At) → (i : Instr) → (a b : ℕ) → (l : Retire)
        → executed m at i a b ≡ Retired l → IsStore m l.store }
{}

/// A store that hits no byte of an instruction's word leaves the word.
pub fn a_store_elsewhere_leaves_a_word()
    ensures { (m : Region) → (store : Store) → (e : Entry)
        → IsStore m (Some store) → is_hit store e ≡ false
        → word_at (memory_after m (Some store)) e.pc ≡ word_at m e.pc }
{}

/// A word is taken by an entry of the set that has the flags of the response, which the interface
/// allows, and the core has each half that they name (CV-X-IF 1.0.0, "Issue interface" and
/// "Register interface").
pub fn what_a_word_reads_is_there()
    ensures entry { (x : Extension) → (word : ℕ) → (hit : Hit)
        → word_hit x word ≡ Some hit → HasFlagsOf (entry_at x.set hit) x.params word hit }
    ensures allowed { (x : Extension) → (word : ℕ) → (hit : Hit)
        → IsInRange x.params → word_hit x word ≡ Some hit → IsAllowed x.params word hit }
    ensures halves { (x : Extension) → (word : ℕ) → (hit : Hit) → (lane : ℕ) → (half : Half)
        → IsInRange x.params → word_hit x word ≡ Some hit
        → IsTrue (is_read x.params hit.register_read.0 lane half)
        → has_half x.params word lane half ≡ true }
{}
