//! Coprocessor units by their tables: which instruction words they take, and what these do.
//!
//! A `Set` is a list of units, a `Unit` a list of entries. An `Entry` has the words that it takes
//! and one of sixteen operations. The layers above build a set, `check` it, and then `accept` words
//! under checked parameters and `apply` the hits to a `UnitState`, the accumulators of all units.
//! `accept` returns the issue response of CV-X-IF 1.0.0, and `apply` the result. Neither takes
//! memory.
//!
//! The definitions are in `specs/`: `Table` is the table of the operations, a line an operation,
//! and `Bits` has what it says of bits; `Set` and `State` are how sets and states are seen; `Check`
//! has the checks of a set in their order; `Accept` says which entry takes a word, and `Apply` what
//! that does. laws.rt has what holds of the table, in the words of `Laws`.
#![tactic(auto)]

mod accept;
mod apply;
mod check;
mod compute;
pub mod laws;
mod operation;
mod set;
mod state;

pub use accept::Hit;
pub use check::{SetCause, SetFault};
pub use compute::Operands;
pub use operation::{Entry, Op};
pub use set::{Set, Unit};
pub use state::UnitState;
