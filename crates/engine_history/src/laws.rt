//! What holds of every session of the engine.
ghost use Rattle.std.specs.Prelude.{◌≡◌, ◌<◌, ℕ, List, [], ◌∷◌, length, map};
ghost use Rattle.std.specs.Option.{option_map};
ghost use Rattle.xif_base.specs.declared.params.Key.{Key};
ghost use Rattle.xif_base.specs.declared.params.Params.{Params};
ghost use Rattle.xif_base.specs.Params.{IsInRange};
ghost use Rattle.coproc_config.specs.Set.{UnitTable};
ghost use Rattle.xif_drive.specs.Scripts.{Lists};
ghost use Rattle.xif_signals.specs.declared.bus.Bus.{Bus};
ghost use Rattle.xif_session.specs.Uses.{uses_of};
ghost use Rattle.cycle_spec.specs.Turns.{turn_of};
ghost use Rattle.cycle_spec.specs.Cycle.{Machines, bus_at, cycle};
ghost use Rattle.cycle_spec.specs.Run.{Setup, Meaning, new_machines, progress_of};
ghost use Rattle.cycle_spec.specs.Engine.{latest as engine_latest, units_of};
ghost use Rattle.engine_history.specs.Lives.{Life, lives_of, latest, AnswersAreInOrder, without_killed};
ghost use Rattle.engine_history.specs.Runs.{engine_of, IsDriven, HasRun, IsOrderly};
ghost use Rattle.engine_history.specs.Channels.{turn_for, issue_beats, register_beats, acceptances, owner_of, answer_awaited, result_awaited};
ghost use Rattle.engine_history.specs.Told.{use_told, plain, latest_uses, whole_uses, units_told, all_ready, all_complete, session_use};

/// In a run of core and engine, of any predictor, the engine is that of the buses so far, which it
/// drove: so the laws of this crate hold of it.
pub fn run_law<P>()
    ensures start { (setup : Setup) → HasRun setup.params setup.set setup.script []
        (new_machines setup).engine }
    ensures cycle { (params : Params) (set : List UnitTable) (script : Lists)
        (session : List Bus) (machines : Machines) (hart : ℕ) (answer : (pc word : ℕ) → ℕ) →
        HasRun params set script session machines.engine →
        HasRun params set script (bus_at machines hart ∷ session)
        (cycle machines hart answer).engine }
    ensures run { (meaning : Meaning P) (setup : Setup) (predictor : P) →
        HasRun setup.params setup.set setup.script (progress_of meaning setup predictor).buses
        (progress_of meaning setup predictor).machines.engine }
{}

/// The history of a session has the uses that its rules speak of, the newest first. Uses are
/// answered in the order of their starts, and the number of an accepted one is that of the uses
/// that were accepted before it.
pub fn history_law()
    ensures session { (session : List Bus) →
        map session_use (lives_of session) ≡ uses_of session }
    ensures order { (session : List Bus) → AnswersAreInOrder (lives_of session) }
{}

/// The engine counts what the buses say: how many words were accepted, and of a transaction on the
/// issue or the register channel, for any use, how many began before it and how many cycles it has
/// waited; and which use waits for its answer. This holds whatever the core does.
pub fn counts_law()
    ensures cycle { (params : Params) (set : List UnitTable) (script : Lists)
        (session : List Bus) → IsDriven params set script session →
        (engine_of params set script session).cycle ≡ length session }
    ensures accepted { (params : Params) (set : List UnitTable) (script : Lists)
        (session : List Bus) → IsDriven params set script session →
        (engine_of params set script session).accepted ≡ acceptances session }
    ensures issue { (params : Params) (set : List UnitTable) (script : Lists)
        (session : List Bus) → IsDriven params set script session → (owner : ℕ) →
        turn_of (engine_of params set script session).issue_turns owner
        ≡ turn_for owner (issue_beats session) }
    ensures register { (params : Params) (set : List UnitTable) (script : Lists)
        (session : List Bus) → IsDriven params set script session → (owner : ℕ) →
        turn_of (engine_of params set script session).register_turns owner
        ≡ turn_for owner (register_beats session) }
    ensures waiting { (params : Params) (set : List UnitTable) (script : Lists)
        (session : List Bus) → IsDriven params set script session →
        owner_of (engine_of params set script session).issue_turns.waiting
        ≡ answer_awaited session }
{}

/// But for its end and for what the units made of it, each use that the engine keeps is as the
/// history tells; the engine keeps the latest use of each key, in the order of their starts. This
/// holds whatever the core does.
pub fn fields_law()
    ensures uses { (params : Params) (set : List UnitTable) (script : Lists)
        (session : List Bus) → IsDriven params set script session →
        map plain (engine_of params set script session).uses
        ≡ latest_uses (map (use_told params set) (lives_of session)) }
    ensures named { (params : Params) (set : List UnitTable) (script : Lists)
        (session : List Bus) → IsDriven params set script session → (key : Key) →
        option_map plain (engine_latest key (engine_of params set script session).uses)
        ≡ option_map (use_told params set) (latest key (lives_of session)) }
{}

/// Beside an orderly core the engine keeps the latest use of each key, in the order of their
/// starts, each with its end, its ready cycle and its result as the history tells, and knows which
/// use waits for its result to be taken. A use is ready
/// once it is complete and all older accepted ones of its hart that aren't killed are ready, which
/// is once all of them are complete.
pub fn uses_law()
    ensures uses { (params : Params) (set : List UnitTable) (script : Lists)
        (session : List Bus) → IsInRange params → IsDriven params set script session →
        IsOrderly params session → (engine_of params set script session).uses
        ≡ latest_uses (whole_uses params set (lives_of session)) }
    ensures waiting { (params : Params) (set : List UnitTable) (script : Lists)
        (session : List Bus) → IsInRange params → IsDriven params set script session →
        IsOrderly params session → (engine_of params set script session).result_waiting
        ≡ result_awaited session }
    ensures ready { (hart : ℕ) (lives : List Life) →
        all_ready hart lives ≡ all_complete hart lives }
{}

/// Beside an orderly core the accumulators of each hart are those that its ready uses leave, in the
/// order of their issue handshakes. A killed use leaves nothing in them: they are the same without
/// it.
pub fn units_law()
    ensures units { (params : Params) (set : List UnitTable) (script : Lists)
        (session : List Bus) (hart : ℕ) → IsInRange params →
        IsDriven params set script session → IsOrderly params session → hart < params.num_harts →
        units_of (engine_of params set script session) hart
        ≡ units_told params set hart (lives_of session) }
    ensures killed { (params : Params) (set : List UnitTable) (hart : ℕ) (lives : List Life) →
        units_told params set hart (without_killed lives) ≡ units_told params set hart lives }
{}
