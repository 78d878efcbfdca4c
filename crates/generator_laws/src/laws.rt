//! What holds of every run of a generated program.
ghost use Rattle.std.specs.Prelude.{ℕ};
ghost use Rattle.cycle_spec.specs.Run.{Meaning, run_of};
ghost use Rattle.generator_laws.specs.Sums.{setup_of, IsRequest, EndsByEcall, Sums};

/// Each run that `gen` simulates ends by the ECALL of its program, within its budget: whatever the
/// delays that are drawn from the seed, and for every predictor.
pub fn gen_ends_by_ecall<P>()
    ensures { (meaning : Meaning P) (seed count : ℕ) (predictor : P) → IsRequest seed count →
        EndsByEcall count (run_of meaning (setup_of seed count) predictor) }
{}

/// What it leaves is the sum of `count` seeds, in the accumulator and in x3 and x4. All else is as
/// it started, but for the seed in x2.
pub fn gen_sums<P>()
    ensures { (meaning : Meaning P) (seed count : ℕ) (predictor : P) → IsRequest seed count →
        Sums seed count (run_of meaning (setup_of seed count) predictor) }
{}
