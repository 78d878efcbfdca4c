//! What a cycle of core and coprocessors is: the definitions that their code, and each law over
//! their runs, stand on.
//!
//! The types here are the plain data of a cycle, which code and definitions share. The definitions
//! are in `specs/`, to be read in this order:
//!
//! - `Flight`: what the list of the instructions in flight says, and how an entry of it changes;
//! - `Turns`: the transactions of a channel, counted, for the delays of a script (`Counts`, which
//!   is internal, says how far they may be counted);
//! - `State`: what core and engine keep from cycle to cycle;
//! - `Choices`: what the core does in a cycle, all of it chosen from the state at its start;
//! - `Core`: what the core drives, and its state after a cycle, step by step;
//! - `Engine`: what the coprocessors drive, and their state after a cycle, step by step;
//! - `Cycle`: both on one bus;
//! - `Run`: cycles up to a stop, or up to a budget and then until nothing is in flight.
//!
//! A cycle is: the core drives its signals (`core_drive`), the engine answers in the same cycle
//! (`engine_drive`), the core takes a result or not (`core_accepts`), and both go on by what the
//! bus then has (`core_clock`, `engine_clock`). Neither sees the other but by the bus, so that what
//! holds of one for every bus holds beside every other core or coprocessor. The core knows of one
//! hart, which it calls 0; the engine keeps the uses of all harts.
//!
//! Core and engine change their lists by the same steps in the same order, each with a name for the
//! list behind it: the response, the registers that are sent, the commit, and the result. Entries
//! are changed by their numbers and uses by their starts, which are never used again as ids are.
//!
//! `proofs/Examples.antt` computes some runs by these definitions.
#![tactic(auto)]

mod choices;
mod entry;
mod log;
mod transactions;
mod turn;
mod use_of;

pub use choices::{Choices, Executed, Mode, Presented};
pub use entry::{Entry, EntryKind, Operand};
pub use log::{Cut, CycleLog, Dispatch, End};
pub use transactions::{NO_TRANSACTIONS, transactions_after, turn_of};
pub use turn::{Transaction, Transactions, Turn};
pub use use_of::Use;
