//! A rule that fails, and where.

use xif_base::Key;
use xif_signals::{Channel, Rule};

/// A rule that fails in a cycle, with the channel and the key that are reported.
#[derive(Clone, Copy, Debug, PartialEq, Eq)]
pub struct Fault {
    pub rule: Rule,
    pub channel: Channel,
    pub key: Key,
}
