//! What drives a simulation from outside: predictors of the next address, and scripts of delays.
//!
//! `Predictor` is what the core asks at a control transfer and tells where one went; `Never`,
//! `Backward`, `Bimodal` and `Listed` are four of them, and any type that keeps the trait's
//! contract is one. `Script` has the delays of each kind of transaction. `specs/Predictors.antt`
//! and `specs/Scripts.antt` say what they answer.
#![tactic(auto)]

mod backward;
mod bimodal;
mod delays;
mod listed;
mod predictor;
mod script;
mod transfer;

pub use backward::Backward;
pub use bimodal::Bimodal;
pub use delays::Delays;
pub use listed::Listed;
pub use predictor::{Never, Predictor};
pub use script::{Script, ScriptCause, ScriptFault, ScriptLists};
