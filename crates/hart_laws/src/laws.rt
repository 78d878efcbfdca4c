//! What a cycle for one hart leaves of the others.
ghost use Rattle.std.specs.Prelude.{◌≡◌, ◌≢◌, ◌∷◌, ℕ, List, map};
ghost use Rattle.xif_base.specs.declared.params.Params.{Params};
ghost use Rattle.xif_base.specs.Params.{IsInRange};
ghost use Rattle.coproc_config.specs.Set.{UnitTable};
ghost use Rattle.xif_drive.specs.Scripts.{Lists};
ghost use Rattle.xif_signals.specs.declared.bus.Bus.{Bus};
ghost use Rattle.cycle_spec.specs.State.{new_engine};
ghost use Rattle.cycle_spec.specs.Engine.{units_of};
ghost use Rattle.cycle_spec.specs.Cycle.{Machines, bus_at, engine_next};
ghost use Rattle.cycle_spec.specs.Run.{Setup};
ghost use Rattle.trace_laws.specs.Sessions.{Session};
ghost use Rattle.hart_laws.specs.Harts.{HasServed, uses_of, after_result, AreTaken};

/// In a cycle for a hart the engine keeps of each other hart the accumulators, and the uses but for
/// their ends: the use whose result is taken in the cycle is finished. Where each result of that
/// hart that is ready was taken, its uses stay as they are.
pub fn others_law()
    ensures new { (params : Params) (set : List UnitTable) (script : Lists) →
        HasServed (new_engine params set script) }
    ensures served { (hart : ℕ) (m : Machines) →
        HasServed m.engine → HasServed (engine_next m hart) }
    ensures uses { (hart other : ℕ) (m : Machines) → HasServed m.engine → other ≢ hart →
        uses_of (engine_next m hart) other
        ≡ map (after_result (bus_at m hart)) (uses_of m.engine other) }
    ensures taken { (hart other : ℕ) (m : Machines) → HasServed m.engine → other ≢ hart →
        AreTaken m.engine other → uses_of (engine_next m hart) other ≡ uses_of m.engine other }
    ensures units { (hart other : ℕ) (m : Machines) → HasServed m.engine → other ≢ hart →
        units_of (engine_next m hart) other ≡ units_of m.engine other }
{}

/// The engine of a session has served its cores, and where a hart has its turn, each result of
/// another hart that was ready has been taken.
pub fn session_law()
    ensures served { (setup : Setup) (hart : ℕ) (m : Machines) (session : List Bus) →
        Session setup hart m session → HasServed m.engine }
    ensures taken { (setup : Setup) (hart other : ℕ) (m : Machines) (session : List Bus) →
        IsInRange setup.params → Session setup hart m session → other ≢ hart →
        AreTaken m.engine other }
{}
