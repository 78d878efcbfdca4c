//! The command line: what its words ask for, and how a call of the program ends.
//!
//! The layer above may use `xif`, which does all that the program does, `Status`, what it ended
//! with, and the limits of the files. The definitions are in `specs/`: `Words` (the forms of the
//! command line), `Limits` (the longest files), `Outcome` (what a command means where nothing
//! fails), `InOrder` and `Report` (what the in-order commands run and print), `Simulated` (what
//! `run` simulates and writes), `Summary` (what `gen` does), `Verdict` and `Judged` (what `judge`
//! prints, and of which samples), `Status` (numbers and fault lines), `Ending` (how a call can end,
//! and why) and `Afterwards` (what stands of files and output afterwards). `Reading`, `Printing`
//! and `Concluding` are internal. `raw_law`, `step_law` and `judge_law` say what the commands print
//! in the words of their user.
#![tactic(auto)]

mod answer;
mod generate;
mod inorder;
mod judge;
mod laws;
mod limits;
mod print;
mod program;
mod raw;
mod read;
mod report;
mod run;
mod status;
mod step;
mod verdict;
mod words;
mod write_run;

pub use laws::{judge_law, raw_law, step_law};
pub use limits::{JOB_LIMIT, RAW_IMAGE_LIMIT, RAW_LIMIT, TEXT_IMAGE_LIMIT, WAVEFORM_LIMIT};
pub use program::xif;
pub use status::Status;
