//! The signals of the interface in one cycle: as samples of a waveform, in which bits may be
//! unknown, and as a bus, in which all are known.
//!
//! The layers above may use `Signal` with the table's number, code, name and width, `Sample` to
//! collect the values of the signals in a cycle, and `Sample::known`, which returns the bus, or the
//! first of the rules K1 and K2 that fails. `CpuOut`, `CopOut` and `CpuIn` are what core and
//! coprocessor drive, `Bus::join` puts them together, and `Bus::sample` is the way back: `known` of
//! it is the bus again. `Rule` and `Channel` name the rules of a session and the four channels;
//! `Channel::first_failing`, `Bus::is_valid` and `Bus::key` serve every rule that is judged channel
//! by channel.
//!
//! The definitions are in `specs/`: `Signal` (the table of the signals), `Quad` (how an unknown bit
//! reads, and which samples are in a session), `Bus` (who drives what, and which buses fit the
//! widths), `Channels` (valid and key of each channel, and the first channel where a test fails)
//! and `Known` (K1 and K2).
#![tactic(auto)]

mod bus;
mod known;
mod mask;
mod rule;
mod sample;
mod signal;

pub use bus::{Bus, CopOut, CpuIn, CpuOut};
pub use rule::{Channel, Rule, Unknown};
pub use sample::{Quad, Sample};
pub use signal::Signal;
