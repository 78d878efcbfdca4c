//! What the core does in a cycle, chosen from the state at its start.

use crate::entry::Entry;
use crate::log::Cut;
use inorder_machine::{Stepped, StopCause};

/// Whether the core runs on, or drops what is speculative and waits for the rest to retire.
#[derive(Clone, Copy, Debug, PartialEq, Eq)]
pub enum Mode {
    Running,
    /// The next cycle is the first one of a drain.
    DrainBegins,
    Draining,
}

/// An instruction of RV32IM that executes.
#[derive(Clone, Copy, Debug, PartialEq, Eq)]
pub struct Executed {
    pub entry: Entry,
    pub outcome: Stepped,
}

/// What the register interface carries (CV-X-IF 1.0.0, "Register interface").
#[derive(Clone, Copy, Debug, PartialEq, Eq)]
pub struct Presented {
    pub entry: Entry,
    /// The flags of `rs_valid`.
    pub rs_valid: u8,
    /// The lanes; a half whose flag isn't set is 0.
    pub lanes: [u64; 3],
}

/// What the core does in a cycle.
#[derive(Clone, Copy, Debug, PartialEq, Eq)]
pub struct Choices {
    /// The oldest entry stops the machine.
    pub stop: Option<StopCause>,
    /// The oldest entry retires.
    pub retire: Option<Entry>,
    pub execute: Option<Executed>,
    /// The younger entries are dropped, and the next dispatch is elsewhere.
    pub cut: Option<Cut>,
    /// A drain begins, and so many of the oldest entries stay.
    pub drain: Option<u8>,
    /// The word on the issue interface.
    pub offer: Option<Entry>,
    pub present: Option<Presented>,
    /// The word that the commit interface kills.
    pub kill: Option<Entry>,
    /// The word that the commit interface releases.
    pub release: Option<Entry>,
    /// Another instruction is dispatched.
    pub dispatch: bool,
}
