//! The widths of what a run shows.
ghost use Rattle.std.specs.Prelude.{All};
ghost use Rattle.xif_signals.specs.Bus.{FitsWidths};
ghost use Rattle.cycle_spec.specs.Run.{Setup, Meaning, run_of};
ghost use Rattle.width_laws.specs.Ranges.{HasRanges};

/// In each cycle of a run each field of the bus is below 2 to the width of its signal: for every
/// predictor, whatever the memory holds, in both profiles, and in drains too.
pub fn run_widths<P>()
    ensures { (meaning : Meaning P) (setup : Setup) (predictor : P) → HasRanges setup →
        All (FitsWidths setup.params) (run_of meaning setup predictor).buses }
{}
