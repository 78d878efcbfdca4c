//! The faults of a map against the variables of a waveform.
use std::alloc::AllocError;
use xif_base::NoMemory;
use xif_signals::Signal;

/// What is wrong with the place of a signal.
#[derive(Clone, Copy, Debug, PartialEq, Eq)]
pub enum MapFault {
    /// No variable of its name is declared.
    Missing(Signal),
    /// Its name is declared with two identifier codes.
    Ambiguous(Signal),
    /// Its variable lacks a bit that the signal takes, or `high` is no bit of the variable, or
    /// `high` is below the last bit that the signal takes.
    Narrow(Signal),
}

/// Why no sampler was made.
#[derive(Clone, Copy, Debug, PartialEq, Eq)]
pub enum MapFail {
    /// The fault of the first signal in the order of the table that has one.
    Map(MapFault),
    NoMemory,
}

impl From<NoMemory> for MapFail {
    ghost use Rattle.std.specs.Prelude.{◌≡◌};
    ghost use Rattle.xif_sampler.specs.declared.fault.MapFail.TheVariants.{NoMemory};

    ghost from_gives = { λ _ e. e ≡ NoMemory };

    fn from(_: NoMemory) -> Self {
        MapFail::NoMemory
    }
}

impl From<MapFault> for MapFail {
    ghost use Rattle.std.specs.Prelude.{◌≡◌};
    ghost use Rattle.xif_sampler.specs.declared.fault.MapFail.TheVariants.{Map};

    ghost from_gives = { λ fault e. e ≡ Map fault };

    fn from(fault: MapFault) -> Self {
        MapFail::Map(fault)
    }
}

impl From<AllocError> for MapFail {
    ghost use Rattle.std.specs.Prelude.{◌≡◌};
    ghost use Rattle.xif_sampler.specs.declared.fault.MapFail.TheVariants.{NoMemory};

    ghost from_gives = { λ _ e. e ≡ NoMemory };

    fn from(_: AllocError) -> Self {
        MapFail::NoMemory
    }
}
