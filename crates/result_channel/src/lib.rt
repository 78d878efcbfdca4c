//! The result channel of the judge: rules R1 to R6.
//!
//! `ResultSide::step` returns the first of its rules that fails in a cycle, and ends the use whose
//! result is taken. The rules and their tests are those of `xif_session`.
#![tactic(auto)]

mod rules;
mod side;

pub use side::ResultSide;
