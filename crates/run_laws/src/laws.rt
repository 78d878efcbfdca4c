//! What holds of every run.
ghost use Rattle.cycle_spec.specs.Run.{Setup, Meaning, run_of};
ghost use Rattle.run_laws.specs.Headline.{CanRun, IsFaithful};

/// Every run leaves what the in-order machine leaves after as many instructions, and stops where
/// that stops; its coprocessors compute what retires, and what they began besides is killed; its
/// signals are legal; it dispatches eagerly; and it keeps pace. So it is for every predictor, set
/// of units, script, window and program.
pub fn every_run_is_faithful<P>()
    ensures { (meaning : Meaning P) (setup : Setup) (predictor : P) → CanRun setup →
        IsFaithful meaning setup predictor (run_of meaning setup predictor) }
{}
