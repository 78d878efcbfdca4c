//! What core and engine do, as events of the machine that runs ahead.
ghost use Rattle.std.specs.Prelude.{◌≡◌, ℕ, List, [], Option, Some, None, option_map};
ghost use Rattle.std.specs.List.{cons_option};
ghost use Rattle.xif_base.specs.Params.{IsInRange};
ghost use Rattle.inorder_machine.specs.declared.line.Retire.{Retire};
ghost use Rattle.inorder_machine.specs.declared.stop.StopCause.{StopCause};
ghost use Rattle.inorder_machine.specs.Machine.{State};
ghost use Rattle.cycle_spec.specs.Choices.{choices};
ghost use Rattle.cycle_spec.specs.Core.{line_of};
ghost use Rattle.cycle_spec.specs.Cycle.{Machines, cycle};
ghost use Rattle.cycle_spec.specs.Run.{Setup, new_machines};
ghost use Rattle.cycle_paired.specs.Paired.{Paired};
ghost use Rattle.cycle_paired.specs.Reached.{begins_drain, resumes};
ghost use Rattle.ahead_spec.specs.World.{World, begun};
ghost use Rattle.cycle_events.specs.Becomes.{Becomes};
ghost use Rattle.cycle_events.specs.Shown.{Shown, left_by, extension_of, state_in};

/// The machine that runs ahead shows core and engine before the first cycle. In each cycle that
/// doesn't stop the machine, events that may happen lead it to where it shows them after the cycle,
/// for all answers of a predictor, every script and every window, on wrong paths and in drains. The
/// cycle that stops the machine changes nothing that is left.
pub fn each_cycle_is_a_list_of_events()
    ensures start { (hart : ℕ) (setup : Setup) →
        Shown (state_in hart (new_machines setup)) hart [] (new_machines setup)
        (begun (state_in hart (new_machines setup))) }
    ensures cycle { (start : State) (hart : ℕ) (retired : List Retire) (m : Machines)
        (answer : ℕ → ℕ → ℕ) (w : World) →
        IsInRange m.core.params → Paired hart m → (choices m.core).stop ≡ None →
        Shown start hart retired m w →
        Becomes (extension_of m.engine)
        (Shown start hart (cons_option (option_map line_of (choices m.core).retire) retired)
        (cycle m hart answer)) w }
    ensures drain { (start : State) (hart : ℕ) (retired : List Retire) (m : Machines) (w : World) →
        Shown start hart retired m w → Shown start hart retired (begins_drain m) w }
    ensures resumed { (start : State) (hart : ℕ) (retired : List Retire) (m : Machines)
        (w : World) → m.core.flight ≡ [] →
        Shown start hart retired m w → Shown start hart retired (resumes m) w }
    ensures stop { (start : State) (hart : ℕ) (retired : List Retire) (m : Machines)
        (answer : ℕ → ℕ → ℕ) (w : World) (cause : StopCause) →
        Paired hart m → (choices m.core).stop ≡ Some cause → Shown start hart retired m w →
        left_by hart retired (cycle m hart answer) ≡ left_by hart retired m }
{}
