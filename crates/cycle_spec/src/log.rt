//! What the core did in a cycle, as a log tells it.

use inorder_machine::{Retire, StopCause};

/// The younger entries were dropped.
#[derive(Clone, Copy, Debug, PartialEq, Eq)]
pub struct Cut {
    /// How many of the oldest entries stay.
    pub keep: u8,
    /// The address of the next dispatch.
    pub target: u32,
}

/// An instruction was dispatched.
#[derive(Clone, Copy, Debug, PartialEq, Eq)]
pub struct Dispatch {
    pub pc: u32,
    /// `None` if there is no word.
    pub word: Option<u32>,
}

/// What the core did in a cycle.
#[derive(Clone, Copy, Debug, PartialEq, Eq)]
pub struct CycleLog {
    pub retired: Option<Retire>,
    pub cut: Option<Cut>,
    pub dispatched: Option<Dispatch>,
    /// In the first cycle of a drain, how many entries stay.
    pub drained: Option<u8>,
    pub stopped: Option<StopCause>,
    /// The address of the next instruction to retire, after the cycle.
    pub pc: u32,
}

/// How a run ends.
#[derive(Clone, Copy, Debug, PartialEq, Eq)]
pub enum End {
    /// The instruction at the final address stops the machine.
    Stopped(StopCause),
    /// The budget of cycles passed without a stop.
    Budget,
}
