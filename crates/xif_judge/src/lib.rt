//! The judge of the interface: it takes the samples of a waveform in order, and reports the first
//! rule that fails in the first cycle in which one does.
//!
//! The layers above may use `Judge`, with one `step` a sample, and the `Verdict` that it returns. A
//! cycle is a sample. Cycles in which rst_n isn't known to be 1 belong to no session: they are
//! counted, and not judged, and what came before them is forgotten.
//!
//! The definitions are in `specs/`: `Rules` (which rule holds in a cycle), `Histories` (which lists
//! of samples are legal, and the first fault of one that isn't), `Faults` (the fault of a cycle)
//! and `Judging` (which history a judge represents). `legal_law` and `order_law` are the laws that
//! a fault is reported if and only if a rule fails. The rules themselves are those of
//! `xif_session`, and the sides of the judge (`issue_channel`, `commit_channel`, `result_channel`)
//! judge them.
#![tactic(auto)]

mod hart_rule;
mod judge;
mod laws;
mod session_judge;
mod verdict;

pub use judge::Judge;
pub use laws::{legal_law, order_law};
pub use verdict::Verdict;
