//! The waveform of a run, written to a file while the run goes on.
//!
//! The layer above may use `TraceFile`, which takes the bus of each cycle. At the end the file has
//! the text of all buses, and where a write fails it has a prefix of that text, whatever cycles
//! would have followed. The definitions are in `specs/Tracing`.
#![tactic(auto)]

mod trace_file;

pub use trace_file::TraceFile;
