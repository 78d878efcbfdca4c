//! Whether the signals of a waveform were found.
use xif_sampler::{MapFault, Sampler};

/// Whether the signals of a waveform were found.
#[derive(Debug, Drop)]
pub enum Signals {
    /// The declarations weren't read yet.
    Awaited,
    /// The signals were found, and are sampled.
    Found(Sampler),
    /// One of them wasn't found.
    Lost(MapFault),
}
