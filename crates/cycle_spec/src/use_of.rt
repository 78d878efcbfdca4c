//! A use of a key: one instruction that was offered to the coprocessors.

use coproc_config::Hit;
use xif_base::Key;
use xif_session::Decision;

/// One instruction that was offered under a key, and what the engine knows of it.
#[derive(Clone, Copy, Debug, PartialEq, Eq)]
pub struct Use {
    pub key: Key,
    /// The cycle in which its issue transaction starts.
    pub start: u64,
    /// The word of the instruction.
    pub word: u32,
    /// The entry that takes it, once it is accepted.
    pub hit: Option<Hit>,
    /// Its number among the accepted uses of all harts, in the order of their issue handshakes.
    pub order: u64,
    /// It had its register handshake.
    pub given: bool,
    /// The lanes at the register handshake.
    pub lanes: [u64; 3],
    /// What the core decided about it.
    pub decision: Decision,
    /// Its result was taken.
    pub finished: bool,
    /// The cycle from which on its result may be offered, but for the delay of a script.
    pub ready: Option<u64>,
    /// Its result, once it is ready.
    pub result: u64,
}
