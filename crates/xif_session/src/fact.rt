//! A use of a key: one instruction that is offered, and what happened to it.

use xif_base::{ReadFlags, WriteFlags};

/// The coprocessor's answer to an instruction, at the issue handshake (CV-X-IF 1.0.0, "Issue
/// interface").
#[derive(Clone, Copy, Debug, PartialEq, Eq)]
pub struct Response {
    /// The coprocessor takes the instruction.
    pub accept: bool,
    /// The registers that its result writes.
    pub writeback: WriteFlags,
    /// The halves of lanes that it reads.
    pub register_read: ReadFlags,
}

/// What the core decided about an instruction (CV-X-IF 1.0.0, "Commit interface").
#[derive(Clone, Copy, Debug, PartialEq, Eq)]
pub enum Decision {
    Undecided,
    /// It is no longer speculative: its result may be given.
    Released,
    /// It leaves no trace.
    Killed,
}

/// The latest use of a key: an instruction that was offered under it, and what happened to it so
/// far.
#[derive(Clone, Copy, Debug, PartialEq, Eq)]
pub struct Fact {
    /// The cycle in which its issue transaction starts, counted from the first one of the session.
    pub start: u64,
    /// The word of the instruction.
    pub instr: u32,
    /// The answer, once the issue handshake came.
    pub response: Option<Response>,
    /// The halves that were valid at the register handshake, once that came.
    pub operands: Option<ReadFlags>,
    pub decision: Decision,
    /// Its result was taken.
    pub finished: bool,
}
