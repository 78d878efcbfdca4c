//! What holds of core and engine in every state that they reach.
ghost use Rattle.std.specs.Prelude.{◌≡◌, ◌≢◌, ℕ, true, None, Some, []};
ghost use Rattle.inorder_machine.specs.declared.stop.StopCause.{StopCause};
ghost use Rattle.cycle_spec.specs.declared.choices.Mode.TheVariants.{Running};
ghost use Rattle.cycle_spec.specs.State.{Core};
ghost use Rattle.cycle_spec.specs.Choices.{choices};
ghost use Rattle.cycle_spec.specs.Cycle.{Machines, cycle};
ghost use Rattle.cycle_spec.specs.Run.{Setup, new_machines};
ghost use Rattle.cycle_paired.specs.Agreed.{Agreed};
ghost use Rattle.cycle_paired.specs.Paired.{Paired};
ghost use Rattle.cycle_paired.specs.Reached.{Reached, begins_drain, resumes};

/// The core of a hart and the engine are paired before the first cycle, and stay paired: over each
/// cycle in which nothing stops the machine, with X_ISSUE_REGISTER_SPLIT and without, for every
/// window, every script and all answers of a predictor, and where a drain begins or ends.
pub fn pairing_law()
    ensures start { (hart : ℕ) (setup : Setup) → Paired hart (new_machines setup) }
    ensures cycle { (hart : ℕ) (m : Machines) (answer : ℕ → ℕ → ℕ) →
        Paired hart m → (choices m.core).stop ≡ None → Paired hart (cycle m hart answer) }
    ensures drain { (hart : ℕ) (m : Machines) → Paired hart m → Paired hart (begins_drain m) }
    ensures resumed { (hart : ℕ) (m : Machines) → Paired hart m → Paired hart (resumes m) }
    ensures reached { (hart : ℕ) (first m : Machines) →
        Paired hart first → Reached hart first m → Paired hart m }
{}

/// Harts may take turns. Where nothing is in flight or offered, and after the cycle that stops a
/// hart, the core of any hart with nothing in flight is paired with the engine. Nothing is offered
/// after a cycle of a drain.
pub fn turn_law()
    ensures drained { (hart other : ℕ) (m : Machines) (w : Core) →
        Paired hart m → m.core.flight ≡ [] → m.engine.issue_turns.waiting ≡ None →
        w.flight ≡ [] → w.params ≡ m.core.params → Paired other (record m { core = w }) }
    ensures stopped { (hart other : ℕ) (m : Machines) (answer : ℕ → ℕ → ℕ)
        (cause : StopCause) (w : Core) → Paired hart m → (choices m.core).stop ≡ Some cause →
        w.flight ≡ [] → w.params ≡ m.core.params →
        Paired other (record { core = w; engine = (cycle m hart answer).engine }) }
    ensures quiet { (hart : ℕ) (m : Machines) (answer : ℕ → ℕ → ℕ) → m.core.mode ≢ Running →
        (cycle m hart answer).engine.issue_turns.waiting ≡ None }
{}

/// With X_ISSUE_REGISTER_SPLIT core and engine count the register transactions alike, in every
/// state.
pub fn transactions_law()
    ensures start { (hart : ℕ) (setup : Setup) → Agreed hart (new_machines setup) }
    ensures cycle { (hart : ℕ) (m : Machines) (answer : ℕ → ℕ → ℕ) →
        Agreed hart m → m.core.params.split ≡ true → (choices m.core).stop ≡ None →
        Agreed hart (cycle m hart answer) }
    ensures reached { (hart : ℕ) (first m : Machines) → first.core.params.split ≡ true →
        Agreed hart first → Reached hart first m → Agreed hart m }
{}
