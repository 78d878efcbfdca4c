//! Files that a command writes, piece by piece, and what stands of them where a write fails.
//!
//! The layer above may use `start_file`, `append_text` and `end_file`, which write a file through a
//! buffer, so that few calls of the shelf are made for many small pieces, `send_full` where it puts
//! the bytes into the buffer itself, and `write_file` for a text that is whole. At a failure a
//! prefix of the bytes is in the file, or it is untouched.
//!
//! The definitions are in `specs/`: `Targets` (the files that are written, in order, and what
//! stands where their writing stops) and `Writing` (how a file grows piece by piece).
#![tactic(auto)]

mod buffered;
mod whole;

pub use buffered::{append_text, end_file, send_full, start_file};
pub use whole::{append_all, write_file};
