//! The in-order machine: RV32IM and the words that coprocessor units take, instruction by
//! instruction, with no cycles, predictions or ids.
//!
//! The layers above run a [`Machine`] step by step, or up to a number of retirements, and compare
//! every other way of running a program with it. One that keeps its own registers takes from here
//! what an instruction does to them: [`execute`] for a row of RV32IM, [`lane_values`] and
//! [`unit_write`] for a word of a unit. `specs/Machine.antt` defines the state and what one step
//! does, by `specs/Execute.antt` and `specs/Units.antt`, and `specs/After.antt` the states after
//! any number of retirements. laws.rt has what holds of every step.
#![tactic(auto)]

mod instruction;
pub mod laws;
mod line;
mod machine;
mod stop;
mod units;

pub use instruction::execute;
pub use line::{Retire, Stepped, Store, Write};
pub use machine::{Advanced, Machine};
pub use stop::StopCause;
pub use units::{Half, half_register, is_read, lane_values, unit_write};
