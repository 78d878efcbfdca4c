//! What a word takes at its register handshake (CV-X-IF 1.0.0, "Register interface").
ghost use Rattle.std.specs.Prelude.{◌≡◌, ℕ, List, IsTrue, true};
ghost use Rattle.xif_base.specs.Params.{IsInRange};
ghost use Rattle.inorder_machine.specs.declared.units.Half.{Half};
ghost use Rattle.inorder_machine.specs.Machine.{Extension, State, register_of};
ghost use Rattle.inorder_machine.specs.Units.{is_read, lane_values};
ghost use Rattle.xif_session.specs.Tests.{is_within};
ghost use Rattle.cycle_spec.specs.declared.entry.Entry.{Entry};
ghost use Rattle.cycle_spec.specs.declared.entry.Operand.TheVariants.{Here};
ghost use Rattle.cycle_spec.specs.Flight.{older_than, value_or_zero};
ghost use Rattle.cycle_spec.specs.State.{Core};
ghost use Rattle.cycle_spec.specs.Choices.{half_of, flags_of};
ghost use Rattle.ahead_spec.specs.Operands.{halves_read, half_behind, CarriesOperands, applied_to};

/// Where the core presents all that a word reads, each half of a lane that is read has its register
/// behind the older instructions in flight.
pub fn what_is_presented_is_the_operand()
    ensures { (w : Core) → (e : Entry) → (read lane : ℕ) → (half : Half)
        → IsInRange w.params → is_within read (flags_of w e) ≡ true
        → IsTrue (is_read w.params read lane half)
        → half_behind w.params.dual_write w.registers (older_than e.seq w.flight) e.word lane half
        ≡ Here (value_or_zero (half_of w e lane half)) }
{}

/// A unit makes of lanes that carry what a word reads what it makes of the registers, whatever the
/// other halves have.
pub fn only_what_is_read_counts()
    ensures { (x : Extension) → (s : State) → (word : ℕ) → (units : List (List ℕ))
        → (lanes : List ℕ) → IsInRange x.params → CarriesOperands x s word lanes
        → applied_to x word units lanes
        ≡ applied_to x word units (lane_values x.params (register_of s) word (halves_read x word)) }
{}
