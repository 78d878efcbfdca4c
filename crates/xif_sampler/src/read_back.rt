//! The law that the samples of written text are the buses that were written.
ghost use Rattle.std.specs.Prelude.{◌<◌, ◌^◌, List, length, All};
ghost use Rattle.xif_base.specs.declared.params.Params.{Params};
ghost use Rattle.xif_base.specs.Params.{IsInRange};
ghost use Rattle.xif_signals.specs.declared.bus.Bus.{Bus};
ghost use Rattle.xif_signals.specs.Bus.{FitsWidths};
ghost use Rattle.xif_sampler.specs.Written.{SamplesBack};

/// The text of buses whose fields fit their widths has a reading, and by the default map its
/// samples are those buses.
pub fn written_buses_sample_back()
    ensures { (params : Params) (buses : List Bus) → IsInRange params
        → All (FitsWidths params) buses → length buses < 2 ^ 60 → SamplesBack params buses }
{}
