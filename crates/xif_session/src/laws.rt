//! What holds of every session: the rules' tests, the first fault of a cycle, and the latest uses.
ghost use Rattle.std.specs.Prelude.{◌≡◌, ◌↔◌, ◌∷◌, ℕ, List, not, true, None, Some};
ghost use Rattle.xif_base.specs.declared.params.Key.{Key};
ghost use Rattle.xif_base.specs.declared.params.Params.{Params};
ghost use Rattle.xif_base.specs.Params.{IsInRange};
ghost use Rattle.xif_signals.specs.declared.bus.Bus.{Bus};
ghost use Rattle.xif_signals.specs.declared.rule.Rule.{Rule};
ghost use Rattle.xif_session.specs.declared.fault.Fault.{Fault};
ghost use Rattle.xif_session.specs.Facts.{Past, past_of, is_in_flight, named};
ghost use Rattle.xif_session.specs.Rules.{HoldsI2, HoldsR3, NoneBefore};
ghost use Rattle.xif_session.specs.Legal.{Holds, HoldsAll, EachCycle};
ghost use Rattle.xif_session.specs.Tests.{keeps, bus_fault, IsFirstFault};
ghost use Rattle.xif_session.specs.Uses.{latest, uses_of, uses_with, none_in_flight, NoneOlder};

/// A rule's test passes if and only if the rule holds.
pub fn rule_law()
    ensures { (params : Params) (rule : Rule) (p : Past) (b : Bus) →
        IsInRange params → (keeps params rule p b ≡ true) ↔ Holds params rule p b }
{}

/// A cycle has no fault if and only if every rule holds in it, and else the fault of the first rule
/// that fails, with its channel and its key.
pub fn fault_law()
    ensures none { (params : Params) (p : Past) (b : Bus) →
        IsInRange params → (bus_fault params p b ≡ None) ↔ HoldsAll params p b }
    ensures first { (params : Params) (p : Past) (b : Bus) (fault : Fault) →
        IsInRange params → (bus_fault params p b ≡ Some fault) ↔ IsFirstFault params p b fault }
{}

/// The facts of a key are those of its latest use in the list of all uses of the session. If I2
/// held so far, no use of the key is in flight if and only if the latest one isn't: older uses are
/// over. If I2 of profile 2 and R3 held so far, a kill is in order among all uses if and only if it
/// is among the latest ones: older uses don't wait for a decision.
pub fn facts_law()
    ensures latest { (session : List Bus) (key : Key) →
        latest (uses_of session) key ≡ (past_of session).facts key }
    ensures in_flight { (params : Params) (session : List Bus) (key : Key) →
        EachCycle (HoldsI2 params) session →
        none_in_flight params.profile (uses_of session) key
        ≡ not (is_in_flight params.profile ((past_of session).facts key)) }
    ensures in_order { (params : Params) (session : List Bus) (b : Bus) (hart start : ℕ) →
        params.profile ≡ 2 → EachCycle (HoldsI2 params) (b ∷ session) →
        EachCycle HoldsR3 session → NoneOlder params (uses_with session b) hart start
        ↔ NoneBefore params (named (past_of session) b) hart start }
{}
