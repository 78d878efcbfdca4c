//! The log of a run: a text with a line for each thing that the core does.
//!
//! `push_cycle` writes the lines of one cycle, and `log_text` those of several. `HexWord`,
//! `HexDouble` and `cause_word` write what reports have too. The definitions are in `specs/`:
//! `Words` (numbers and causes in words), `Log` (which lines a cycle has, and the text of a run),
//! and `Told` (what is printed of a log). `log_law` says that a text tells all of that. `Growth` is
//! internal.
#![tactic(auto)]

mod cycle;
mod hex;
mod laws;
mod line;
mod push;
mod words;

pub use cycle::{log_text, push_cycle};
pub use hex::{HexDouble, HexWord};
pub use laws::log_law;
pub use line::Line;
pub use words::cause_word;
