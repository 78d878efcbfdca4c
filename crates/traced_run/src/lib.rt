//! Runs of which texts or counts are kept in place of their cycles.
//!
//! The layer above may use `run_counted`, which counts the cycles of a run, its retired
//! instructions and its cuts, and `run_traced`, which also writes the waveform to a file while the
//! run goes on, and keeps the text of its log. The definitions are in `specs/Left`; `Telling` is
//! internal.
#![tactic(auto)]

mod counts;
mod ran;
mod traced;

pub use counts::Counts;
pub use ran::{Ran, run_counted};
pub use traced::{Traced, run_traced};
