//! The laws of the judge: a fault is reported if and only if a rule fails.
ghost use Rattle.std.specs.Prelude.{◌≡◌, ◌↔◌, List, IsTrue, Some, None};
ghost use Rattle.xif_base.specs.declared.params.Params.{Params};
ghost use Rattle.xif_base.specs.Params.{IsInRange};
ghost use Rattle.xif_signals.specs.declared.sample.Quad.{Quad};
ghost use Rattle.xif_signals.specs.declared.rule.Rule.{Rule};
ghost use Rattle.xif_signals.specs.Quad.{is_in_session};
ghost use Rattle.xif_session.specs.Legal.{IsBefore};
ghost use Rattle.xif_judge.specs.declared.verdict.Verdict.{Verdict};
ghost use Rattle.xif_judge.specs.Rules.{HoldsAt};
ghost use Rattle.xif_judge.specs.Faults.{fault_now, Reports};
ghost use Rattle.xif_judge.specs.Histories.{first_fault, IsLegal, IsFirst};

/// A history has no fault if and only if it is legal, and else the fault of the first rule that
/// fails in the first cycle in which one does.
pub fn legal_law()
    ensures legal { (params : Params) (history : List (List Quad)) → IsInRange params →
        (first_fault params history ≡ None) ↔ IsLegal params history }
    ensures first { (params : Params) (history : List (List Quad)) (verdict : Verdict) →
        IsInRange params →
        (first_fault params history ≡ Some verdict) ↔ IsFirst params history verdict }
{}

/// A rule is reported of a cycle if and only if the cycle is in a session, the rule fails, and the
/// rules before it hold.
pub fn order_law()
    ensures { (params : Params) (rule : Rule) (older : List (List Quad)) (sample : List Quad) →
        IsInRange params → Reports (fault_now params older sample) rule
        ↔ (IsTrue (is_in_session sample params) × (¬ HoldsAt params rule older sample)
        × ((earlier : Rule) → IsBefore earlier rule → HoldsAt params earlier older sample)) }
{}
