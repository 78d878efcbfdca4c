//! What is counted of a run.
ghost use Rattle.std.specs.Prelude.{◌≡◌, ◌<◌, ◌^◌};
ghost use Rattle.traced_run.specs.Left.{counted};
ghost use Rattle.traced_run.specs.Telling.{IsSmall};

use cycle_spec::CycleLog;

/// What is counted of a run.
#[derive(Clone, Copy, Debug, PartialEq, Eq)]
pub struct Counts {
    /// The cycles.
    pub cycles: u64,
    /// The instructions that retired.
    pub retired: u64,
    /// How often the younger entries were dropped.
    pub cuts: u64,
}

impl Counts {
    /// Before any cycle.
    pub(crate) fn none() -> Counts
        ensures { result ≡ record { cycles = 0; retired = 0; cuts = 0 } }
    {
        Counts {
            cycles: 0,
            retired: 0,
            cuts: 0,
        }
    }

    /// With a cycle more.
    pub(crate) fn with(self, log: &CycleLog) -> Counts
        requires { IsSmall self (2 ^ 32) }
        ensures { result ≡ counted self log.now }
    {
        Counts {
            cycles: self.cycles + 1,
            retired: self.retired + u64::from(log.retired.is_some()),
            cuts: self.cuts + u64::from(log.cut.is_some()),
        }
    }
}
