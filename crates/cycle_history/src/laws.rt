//! What the uses of every run are.
ghost use Rattle.xif_base.specs.Params.{IsInRange};
ghost use Rattle.cycle_spec.specs.Run.{Setup, Meaning, progress_of, run_of};
ghost use Rattle.trace_laws.specs.Sessions.{HasBytes};
ghost use Rattle.cycle_history.specs.Uses.{UsesAreThoseThatRetire};

/// Whatever a predictor answers, and however long the coprocessors and the core delay each other:
/// the accepted and released uses of a run are those of the words that retired, with the operands
/// and the results of the in-order machine, and each other accepted use is killed.
pub fn uses_law<P>()
    ensures { (meaning : Meaning P) (setup : Setup) (predictor : P) → IsInRange setup.params
        → HasBytes setup.memory
        → UsesAreThoseThatRetire setup (progress_of meaning setup predictor).buses
        (run_of meaning setup predictor).retired }
{}
