//! The fault of a cycle, and the verdict of a list of samples.
ghost use Rattle.std.specs.Prelude.{◌≡◌};
ghost use Rattle.xif_judge.specs.Histories.{verdict_on};

use xif_base::Key;
use xif_session::Fault as BusFault;
use xif_signals::{Channel, Rule, Unknown};

/// The first rule that fails in a cycle, and the channel and the key that are reported of it.
#[derive(Clone, Copy)]
pub struct Fault {
    pub rule: Rule,
    pub channel: Channel,
    pub key: Option<Key>,
}

/// The verdict of a list of samples that isn't legal: its first fault.
#[derive(Clone, Copy, Debug, PartialEq, Eq)]
pub struct Verdict {
    /// The number of samples before the one that has the fault.
    pub cycle: u64,
    /// The first rule that fails.
    pub rule: Rule,
    /// The channel that is reported: for K1, K2 and H1 the first one at which the rule fails.
    pub channel: Channel,
    /// The key that is reported. K1 and K2 have none.
    pub key: Option<Key>,
}

impl From<Unknown> for Fault {
    ghost use Rattle.xif_judge.specs.Faults.{unknown_at};

    ghost from_gives = { λ unknown fault. fault ≡ unknown_at unknown.rule unknown.channel };

    fn from(unknown: Unknown) -> Fault {
        Fault {
            rule: unknown.rule,
            channel: unknown.channel,
            key: None,
        }
    }
}

impl From<BusFault> for Fault {
    ghost use Rattle.xif_judge.specs.Faults.{with_key};

    ghost from_gives = { λ fault keyed. keyed ≡ with_key fault };

    fn from(fault: BusFault) -> Fault {
        Fault {
            rule: fault.rule,
            channel: fault.channel,
            key: Some(fault.key),
        }
    }
}

impl Fault {
    /// The verdict of a fault in a cycle.
    pub fn on(&self, cycle: u64) -> Verdict
        ensures { result ≡ verdict_on cycle self.now }
    {
        Verdict {
            cycle,
            rule: self.rule,
            channel: self.channel,
            key: self.key,
        }
    }
}
