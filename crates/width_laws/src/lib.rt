//! What a run shows on the bus fits the widths of the signals.
//!
//! A waveform has so many bits for each signal as the parameters of the interface say, so only a
//! bus whose fields are below those powers of 2 can be read back from it. `run_widths` says that
//! each bus of each run is one, where the numbers of its setup are in their ranges
//! (`specs/Ranges.antt`).
//!
//! In `proofs/`, `Bounds` and `Rows` have that what an instruction computes is a word, and `Table`
//! that a result of the units fits the registers that it is written to. `Memories` has the bytes of
//! the memory, `Operands` what an instruction in flight reads. `Chosen` says what is chosen of the
//! entries in flight, `Entries` what the steps of a cycle keep of them, and `Presenting` what the
//! lanes carry. `Uses` is the same for the engine, `Buses` puts both sides together, and `Runs` has
//! whole runs.
#![tactic(auto)]

mod laws;

pub use laws::run_widths;
