//! The core beside any coprocessor.
ghost use Rattle.std.specs.Prelude.{◌<◌, ◌∷◌, ℕ, List};
ghost use Rattle.xif_base.specs.declared.params.Params.{Params};
ghost use Rattle.xif_base.specs.Params.{IsInRange};
ghost use Rattle.xif_drive.specs.Scripts.{Lists};
ghost use Rattle.xif_image.specs.Region.{Region};
ghost use Rattle.xif_signals.specs.declared.bus.Bus.{Bus};
ghost use Rattle.xif_signals.specs.declared.bus.CopOut.{CopOut};
ghost use Rattle.xif_session.specs.Legal.{CoreKeeps, EngineKeeps, EachCycle};
ghost use Rattle.cycle_spec.specs.State.{Core, new_core};
ghost use Rattle.trace_laws.specs.Driven.{bus_with};
ghost use Rattle.trace_laws.specs.Sessions.{HasBytes};
ghost use Rattle.core_laws.specs.Answered.{Answered};

/// Beside any coprocessor that keeps the rules of its side in each cycle, the core of a hart keeps
/// those of its own, all of them: in both profiles, for every window, script and memory, whatever a
/// predictor answers, through drains and behind them, up to and with the cycle that stops it. Of
/// the newest cycle nothing is asked of the coprocessor: what the core drives doesn't depend on it.
pub fn core_law()
    ensures { (params : Params) (script : Lists) (window : ℕ) (memory : Region) →
        (entry hart : ℕ) → IsInRange params → HasBytes memory → hart < params.num_harts →
        (w : Core) (session : List Bus) →
        Answered hart (new_core params script window memory entry) w session →
        EachCycle (EngineKeeps params) session → (cop : CopOut) →
        EachCycle (CoreKeeps params) (bus_with hart w cop ∷ session) }
{}
