//! What holds of every run.
ghost use Rattle.std.specs.Prelude.{◌≡◌, ℕ, length, map};
ghost use Rattle.xif_base.specs.Params.{IsInRange};
ghost use Rattle.cycle_spec.specs.Run.{Setup, Meaning, start, is_stopped, cycles_until, drained, progress_of};
ghost use Rattle.eager_laws.specs.Flights.{cycles_of, EachTold, flight_after, told_of};
ghost use Rattle.eager_laws.specs.Eager.{IsEager};

/// What the log and the buses so far say is in flight is what the core has in flight: addresses,
/// words, predictions and responses. So it is after each cycle up to a stop, and after each cycle
/// of the drain behind the budget. A run has a log for each bus.
pub fn the_flight_is_told<P>()
    ensures runs { (meaning : Meaning P) (setup : Setup) (predictor : P) (cycles : ℕ) →
        IsInRange setup.params →
        let p = cycles_until meaning is_stopped cycles (start setup predictor) in
        map told_of p.machines.core.flight
        ≡ flight_after meaning predictor (cycles_of p.logs p.buses) }
    ensures drains { (meaning : Meaning P) (setup : Setup) (predictor : P) (cycles : ℕ) →
        IsInRange setup.params →
        let p = drained meaning cycles
        (cycles_until meaning is_stopped setup.budget (start setup predictor)) in
        map told_of p.machines.core.flight
        ≡ flight_after meaning predictor (cycles_of p.logs p.buses) }
    ensures count { (meaning : Meaning P) (setup : Setup) (predictor : P) →
        length (progress_of meaning setup predictor).logs
        ≡ length (progress_of meaning setup predictor).buses }
{}

/// Each cycle of a run is eager, that of a stop and those of a drain too: whatever a predictor
/// answers, and however long the coprocessors and the core delay each other.
pub fn every_run_is_eager<P>()
    ensures { (meaning : Meaning P) (setup : Setup) (predictor : P) → IsInRange setup.params →
        EachTold (IsEager meaning setup predictor)
        (cycles_of (progress_of meaning setup predictor).logs
        (progress_of meaning setup predictor).buses) }
{}
