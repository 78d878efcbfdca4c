//! The longest files that are read, in bytes. A longer file is refused as too big.

/// The longest image of `raw`.
pub const RAW_LIMIT: u64 = 65_536;

/// The longest job file.
pub const JOB_LIMIT: u64 = 262_144;

/// A job's longest image of plain bytes.
pub const RAW_IMAGE_LIMIT: u64 = 1_048_576;

/// A job's longest image that is a text.
pub const TEXT_IMAGE_LIMIT: u64 = 8_388_608;

/// The longest waveform.
pub const WAVEFORM_LIMIT: u64 = 134_217_728;
