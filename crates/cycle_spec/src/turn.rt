//! The transactions of a channel, counted.

/// Which transaction of its kind a cycle belongs to, and which cycle of that transaction it is:
/// both are counted from 0.
#[derive(Clone, Copy, Debug, PartialEq, Eq)]
pub struct Turn {
    pub number: u64,
    pub age: u64,
}

/// A transaction that waits for its handshake.
#[derive(Clone, Copy, Debug, PartialEq, Eq)]
pub struct Transaction {
    /// For whom it is. The core names a use by the number of its entry, the engine by the cycle in
    /// which it started.
    pub owner: u64,
    /// Its number, and the age of its next cycle.
    pub turn: Turn,
}

/// The transactions of a channel so far.
#[derive(Clone, Copy, Debug, PartialEq, Eq)]
pub struct Transactions {
    /// The one of the last cycle, if it waits for its handshake.
    pub waiting: Option<Transaction>,
    /// How many began.
    pub begun: u64,
}
