//! What holds of each half, beside any other that keeps its own rules, and of both.
ghost use Rattle.std.specs.Prelude.{◌≡◌, ◌∷◌, ℕ, List};
ghost use Rattle.xif_base.specs.declared.params.Params.{Params};
ghost use Rattle.xif_base.specs.Params.{IsInRange};
ghost use Rattle.coproc_config.specs.Set.{UnitTable};
ghost use Rattle.xif_drive.specs.Scripts.{Lists};
ghost use Rattle.xif_signals.specs.declared.bus.Bus.{Bus};
ghost use Rattle.xif_signals.specs.declared.bus.CpuOut.{CpuOut};
ghost use Rattle.xif_signals.specs.declared.bus.CpuIn.{CpuIn};
ghost use Rattle.xif_session.specs.Legal.{CoreKeeps, EngineKeeps, EachCycle, IsLegalSession};
ghost use Rattle.cycle_spec.specs.State.{new_engine};
ghost use Rattle.cycle_spec.specs.Cycle.{Machines, bus_at};
ghost use Rattle.cycle_spec.specs.Run.{Setup, Meaning, progress_of};
ghost use Rattle.trace_laws.specs.Driven.{driven_buses};
ghost use Rattle.trace_laws.specs.Sessions.{HasBytes, Session};

/// Beside any core that keeps the rules of its side in each cycle, the engine keeps those of its
/// own in each cycle, for all harts and in both profiles.
pub fn engine_law()
    ensures { (params : Params) (set : List UnitTable) (script : Lists) → IsInRange params →
        (driven : List (CpuOut × CpuIn)) →
        EachCycle (CoreKeeps params) (driven_buses (new_engine params set script) driven) →
        EachCycle (EngineKeeps params) (driven_buses (new_engine params set script) driven) }
{}

/// Each session of core and engine is legal, with its next cycle, be it the one that stops the
/// machine: in both profiles, for every window and script, whatever a predictor answers, where
/// drains begin and end, and where harts take turns.
pub fn session_law()
    ensures { (setup : Setup) (hart : ℕ) (m : Machines) (session : List Bus) →
        IsInRange setup.params → Session setup hart m session →
        IsLegalSession setup.params (bus_at m hart ∷ session) }
{}

/// So is each run, for every predictor: up to a stop, or to the end of its budget and of the drain
/// behind it.
pub fn run_law<P>()
    ensures { (meaning : Meaning P) (setup : Setup) (predictor : P) →
        IsInRange setup.params → HasBytes setup.memory →
        IsLegalSession setup.params (progress_of meaning setup predictor).buses }
{}
