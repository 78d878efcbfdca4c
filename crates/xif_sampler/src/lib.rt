//! The samples of a waveform: the values of the signals of the interface before each rise of the
//! clock.
//!
//! A `SignalMap` says in which variables of the waveform the signals are found. A `Sampler` takes
//! the items of the waveform in order, its times and its changes, and returns the sample of each
//! instant in which the clock rises. `sample_items` does so for a whole list of items.
//!
//! The definitions are in `specs/`: `Places` (where the bits of a signal come from, and the first
//! fault of a map), `Digits` (the bits of a value), `Samples` (the instants of a waveform, and its
//! samples), `Keeping` (which history a sampler represents) and `Written` (the samples of written
//! text are the buses that were written, by the law `written_buses_sample_back`). `Steps` is
//! internal.
#![tactic(auto)]

mod digits;
mod fault;
mod find;
mod items;
mod keeping;
mod place;
mod read_back;
mod sampler;
mod source;

pub use fault::{MapFail, MapFault};
pub use items::sample_items;
pub use place::{Place, SignalMap};
pub use read_back::written_buses_sample_back;
pub use sampler::Sampler;
