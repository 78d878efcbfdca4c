//! Laws of the steps, which a machine that runs ahead of this one rests on: each is the contract of
//! a call that does nothing.
ghost use Rattle.std.specs.Prelude.{◌≡◌, ◌<◌, ◌≤◌, ◌+◌, ◌^◌, ◌==◌, ℕ, List, length, Some, None, Contains, IsTrue, slice_index, if◌then◌else◌, false};
ghost use Rattle.rv32_table.specs.Instr.{decoded, source_field};
ghost use Rattle.xif_base.specs.declared.params.Params.{Params};
ghost use Rattle.coproc_config.specs.Bits.{low_half, high_half};
ghost use Rattle.xif_image.specs.Region.{word_at};
ghost use Rattle.inorder_machine.specs.declared.line.Retire.{Retire};
ghost use Rattle.inorder_machine.specs.declared.line.Stepped.TheVariants.{Retired};
ghost use Rattle.inorder_machine.specs.declared.units.Half.TheVariants.{Low, High};
ghost use Rattle.inorder_machine.specs.Units.{has_flag, is_read, lane_of, unit_write};
ghost use Rattle.inorder_machine.specs.Machine.{Extension, State, register_in, register_of, next_step, registers_after, state_after, units_after};
ghost use Rattle.inorder_machine.specs.Registers.{written_by, targets_of, SameFor, IsFile};

use rv32_table::laws::what_is_not_read_does_not_count;

/// A line has the address of the next instruction, and the word that the memory has there.
pub fn a_line_is_of_the_next_instruction()
    ensures pc { (x : Extension) → (s : State) → (l : Retire) → next_step x s ≡ Retired l
        → l.pc ≡ s.pc }
    ensures word { (x : Extension) → (s : State) → (l : Retire) → next_step x s ≡ Retired l
        → word_at s.memory s.pc ≡ Some l.word }
{}

/// A line writes the registers that its word names, no other and no fewer: an instruction of RV32IM
/// its target, and a word of a unit rd and the register behind it as its writeback has their flags.
pub fn a_line_writes_the_targets_of_its_word()
    ensures written { (x : Extension) → (s : State) → (l : Retire) → next_step x s ≡ Retired l
        → written_by l.write ≡ targets_of x l.word }
    ensures others { (x : Extension) → (s : State) → (l : Retire) → next_step x s ≡ Retired l
        → (i : ℕ) → ¬ Contains (targets_of x l.word) i
        → register_of (state_after x s (Retired l)) i ≡ register_of s i }
{}

/// A register that a word doesn't read doesn't count: whatever it holds, the step has the same
/// outcome, and the units the same accumulators after it.
pub fn what_is_not_read_does_not_change_a_step()
    ensures outcome { (x : Extension) → (s t : State) → (word : ℕ)
        → word_at s.memory s.pc ≡ Some word → SameFor x word s t → next_step x t ≡ next_step x s }
    ensures units { (x : Extension) → (s t : State) → (word : ℕ)
        → SameFor x word s t → units_after x t word ≡ units_after x s word }
{
    what_is_not_read_does_not_count();
}

/// The low half of a lane that is read carries the register of its field, the high half that is
/// read the register behind it, and 0 behind x0. A half that isn't read carries 0.
pub fn a_half_that_is_read_carries_its_register()
    ensures low { (p : Params) → (registers : List ℕ) → (word flags lane : ℕ)
        → ((i : ℕ) → register_in registers i < 2 ^ 32) → IsTrue (is_read p flags lane Low)
        → low_half (lane_of p (register_in registers) word flags lane)
        ≡ register_in registers (source_field word lane) }
    ensures high { (p : Params) → (registers : List ℕ) → (word flags lane : ℕ)
        → ((i : ℕ) → register_in registers i < 2 ^ 32) → IsTrue (is_read p flags lane High)
        → let field = source_field word lane in
        high_half (lane_of p (register_in registers) word flags lane)
        ≡ (if field == 0 then 0 else register_in registers (field + 1)) }
    ensures low_unread { (p : Params) → (registers : List ℕ) → (word flags lane : ℕ)
        → is_read p flags lane Low ≡ false
        → low_half (lane_of p (register_in registers) word flags lane) ≡ 0 }
    ensures high_unread { (p : Params) → (registers : List ℕ) → (word flags lane : ℕ)
        → ((i : ℕ) → register_in registers i < 2 ^ 32) → is_read p flags lane High ≡ false
        → high_half (lane_of p (register_in registers) word flags lane) ≡ 0 }
{}

/// A result whose writeback has the first flag leaves its low half in rd, and one that has the
/// second its high half in the register behind rd. Where rd is x0 nothing is written.
pub fn a_result_is_written_by_halves()
    ensures low { (registers : List ℕ) → (rd flags value : ℕ) → rd < length registers
        → IsTrue (has_flag flags 0) → 0 < rd
        → register_in (registers_after registers (unit_write rd flags value)) rd
        ≡ low_half value }
    ensures high { (registers : List ℕ) → (rd flags value : ℕ) → rd + 1 < length registers
        → IsTrue (has_flag flags 1) → 0 < rd
        → register_in (registers_after registers (unit_write rd flags value)) (rd + 1)
        ≡ high_half value }
    ensures zero { (registers : List ℕ) → (flags value : ℕ)
        → registers_after registers (unit_write 0 flags value) ≡ registers }
{}

/// A step keeps the 32 registers, and 0 in the first.
pub fn a_step_keeps_the_registers()
    ensures { (x : Extension) → (s : State) → IsFile s.registers
        → IsFile (state_after x s (next_step x s)).registers }
{}
