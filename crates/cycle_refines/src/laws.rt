//! What every run leaves.
ghost use Rattle.xif_base.specs.Params.{IsInRange};
ghost use Rattle.cycle_spec.specs.Run.{Setup, Meaning, progress_of, run_of};
ghost use Rattle.cycle_refines.specs.RefinesInOrder.{RefinesInOrder};

/// Whatever a predictor answers, and however long the coprocessors and the core delay each other:
/// registers, memory and retired instructions of a run are those of the in-order machine after as
/// many instructions, accumulators too where it stopped or where nothing is in flight at its end,
/// and a stop is the in-order machine's.
pub fn every_run_refines_the_in_order_machine<P>()
    ensures { (meaning : Meaning P) (setup : Setup) (predictor : P) → IsInRange setup.params
        → RefinesInOrder setup (progress_of meaning setup predictor).machines.core.flight
        (run_of meaning setup predictor) }
{}
