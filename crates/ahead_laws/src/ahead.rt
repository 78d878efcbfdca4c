//! Whatever is dispatched, executed, offered, cut and retired, and in which order: what is left is
//! what the in-order machine leaves.
ghost use Rattle.std.specs.Prelude.{◌≡◌, ℕ, false, true, List, length, Some};
ghost use Rattle.xif_base.specs.Params.{IsInRange};
ghost use Rattle.xif_image.specs.Region.{Region};
ghost use Rattle.inorder_machine.specs.declared.line.Retire.{Retire};
ghost use Rattle.inorder_machine.specs.declared.line.Stepped.TheVariants.{Retired};
ghost use Rattle.inorder_machine.specs.Machine.{Extension, State, register_of, taken};
ghost use Rattle.cycle_spec.specs.declared.entry.Operand.TheVariants.{Here};
ghost use Rattle.cycle_spec.specs.Flight.{may_write, value_in, operand_behind};
ghost use Rattle.ahead_spec.specs.Walk.{Item, entries, outcome, along};
ghost use Rattle.ahead_spec.specs.Operands.{CarriesOperands, unit_step};
ghost use Rattle.ahead_spec.specs.World.{World, Spot, Event, whole, begun, happens, run};
ghost use Rattle.ahead_spec.specs.Guards.{May, MayRun};
ghost use Rattle.ahead_spec.specs.Refines.{Refines};
ghost use Rattle.ahead_spec.specs.Invariant.{Agrees, RunsAhead};

/// After any events, each of which may happen where it does, registers, memory, accumulators and
/// retired instructions are those of the in-order machine after as many instructions, and a stop is
/// its stop.
pub fn any_events_refine_the_in_order_machine()
    ensures { (x : Extension) → (start : State) → (events : List Event)
        → IsInRange x.params → length start.registers ≡ 32
        → MayRun x (begun start) events → Refines x start (run x (begun start) events) }
{}

/// What makes it so holds before the first event, and each event keeps it.
pub fn each_event_keeps_what_holds()
    ensures begins { (x : Extension) → (start : State)
        → length start.registers ≡ 32 → RunsAhead x start (begun start) }
    ensures keeps { (x : Extension) → (start : State) → (w : World) → (event : Event)
        → IsInRange x.params → May x w event
        → RunsAhead x start w → RunsAhead x start (happens x w event) }
    ensures refines { (x : Extension) → (start : State) → (w : World)
        → RunsAhead x start w → Refines x start w }
{}

/// A register that an instruction in flight finds here, lanes that were sent to a word, and the
/// result of a word: each is what the in-order machine has at that instruction, also on a wrong
/// path.
pub fn what_is_in_flight_is_in_order()
    ensures operand { (x : Extension) → (start : State) → (w : World) → (p : Spot)
        → (ahead : RunsAhead x start w) → (r value : ℕ)
        → IsInRange x.params → w.flight ≡ whole p
        → operand_behind x.params.dual_write w.registers (entries p.older) r ≡ Here value
        → register_of (along x ahead.now p.older) r ≡ value }
    ensures lanes { (x : Extension) → (start : State) → (w : World) → (p : Spot)
        → (ahead : RunsAhead x start w) → (lanes : List ℕ)
        → w.flight ≡ whole p → p.item.sent ≡ Some lanes
        → CarriesOperands x (along x ahead.now p.older) p.item.entry.word lanes }
    ensures result { (x : Extension) → (start : State) → (w : World) → (p : Spot)
        → (ahead : RunsAhead x start w) → (result : ℕ)
        → w.flight ≡ whole p → p.item.result ≡ Some result
        → result ≡ (unit_step x (along x ahead.now p.older) p.item.entry.word).result }
{}

/// The line of an instruction in flight leaves each register that its entry can't write, and once
/// the entry is done it writes what the entry says.
pub fn what_is_written_is_within_what_may_be_written()
    ensures stays { (x : Extension) → (memory : Region) → (s : State) → (y : Item) → (l : Retire)
        → (r : ℕ) → IsInRange x.params → length s.registers ≡ 32 → Agrees x memory s y
        → outcome x s y.entry.pc y.entry.kind y.entry.word ≡ Retired l
        → may_write x.params.dual_write r y.entry ≡ false
        → register_of (taken x s l) r ≡ register_of s r }
    ensures value { (x : Extension) → (memory : Region) → (s : State) → (y : Item) → (l : Retire)
        → (r : ℕ) → IsInRange x.params → length s.registers ≡ 32 → Agrees x memory s y
        → outcome x s y.entry.pc y.entry.kind y.entry.word ≡ Retired l
        → y.entry.done ≡ true → may_write x.params.dual_write r y.entry ≡ true
        → register_of (taken x s l) r ≡ value_in y.entry.write r }
{}
