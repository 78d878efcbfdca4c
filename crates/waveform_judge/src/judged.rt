//! The answer for a waveform.
use vcd_text::{FeedFail, VcdFault};
use xif_base::NoMemory;
use xif_judge::Verdict;
use xif_sampler::MapFault;

/// The answer for a waveform that has a reading, and in which the signals are found.
#[derive(Clone, Copy, Debug, PartialEq, Eq)]
pub struct Judged {
    /// The number of its cycles, the instants in which the clock rises.
    pub cycles: u64,
    /// The first fault, if there is one.
    pub verdict: Option<Verdict>,
}

/// Why a waveform can't be judged.
#[derive(Clone, Copy, Debug, PartialEq, Eq)]
pub enum JudgeFail {
    /// Its text has no reading.
    Vcd(VcdFault),
    /// Its text has a reading, but a signal isn't found in it.
    Map(MapFault),
    /// Out of memory.
    NoMemory,
}

impl From<NoMemory> for JudgeFail {
    ghost use Rattle.std.specs.Prelude.{◌≡◌};
    ghost use Rattle.waveform_judge.specs.declared.judged.JudgeFail.TheVariants.{NoMemory};

    ghost from_gives = { λ _ e. e ≡ NoMemory };

    fn from(_: NoMemory) -> Self {
        JudgeFail::NoMemory
    }
}

impl From<MapFault> for JudgeFail {
    ghost use Rattle.std.specs.Prelude.{◌≡◌};
    ghost use Rattle.waveform_judge.specs.declared.judged.JudgeFail.TheVariants.{Map};

    ghost from_gives = { λ fault e. e ≡ Map fault };

    fn from(fault: MapFault) -> Self {
        JudgeFail::Map(fault)
    }
}

impl From<FeedFail> for JudgeFail {
    ghost use Rattle.std.specs.Prelude.{◌≡◌};
    ghost use Rattle.waveform_judge.specs.Judged.{fail_of};

    ghost from_gives = { λ fail e. e ≡ fail_of fail };

    fn from(fail: FeedFail) -> Self {
        match fail {
            FeedFail::Vcd(fault) => JudgeFail::Vcd(fault),
            FeedFail::NoMemory => JudgeFail::NoMemory,
        }
    }
}
