//! A program, units and delays that a seed and a count give: a loop that the count goes round, and
//! that adds the seed to an accumulator of a coprocessor in each round.
//!
//! The layer above may use `memory`, `script`, `set` and `PARAMS`, of which a run can be made. The
//! definitions are in `specs/Generated`.
#![tactic(auto)]

mod delays;
mod program;
mod units;

pub use delays::script;
pub use program::{budget, memory};
pub use units::{PARAMS, set};
