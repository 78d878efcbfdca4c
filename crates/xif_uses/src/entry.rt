//! One use: an instruction that was offered under a key.

use xif_base::ReadFlags;
use xif_session::{Decision, Response};

/// The latest use of a key.
#[derive(Clone, Copy, Debug, PartialEq, Eq)]
pub struct Use {
    /// The cycle in which its issue transaction starts.
    pub start: u64,
    /// The word of the instruction.
    pub instr: u32,
    /// Its issue transaction is open: it was not answered, retracted or killed yet.
    pub ongoing: bool,
    /// The answer, once the issue handshake came.
    pub response: Option<Response>,
    /// The halves that were valid at the register handshake, once that came.
    pub operands: Option<ReadFlags>,
    pub decision: Decision,
    /// Its result was taken.
    pub finished: bool,
}
