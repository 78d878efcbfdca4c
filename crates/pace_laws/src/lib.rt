//! Pace: how many cycles lie between two retirements, and how long a drain takes.
//!
//! `specs/Measure.antt` has a measure of the state of core and engine, the cycles that there may be
//! at most until the oldest instruction in flight retires. `measure_law` says that it falls in each
//! cycle without a retirement, `drain_law` that a drain is always empty in time, and `pace_law` how
//! many instructions a run retires at least in its cycles.
//!
//! In `proofs/`, `Steps` and `Chosen` have what a cycle does to the oldest entry, `Track` to its
//! use, and `Keeping` what both sides keep beside their pairing. `Operands`, `Offering` and
//! `Finishing` show that each part of the measure falls, `Falling` puts them together, `Goes` has
//! each cycle, and `Whole` whole runs.
#![tactic(auto)]

mod laws;

pub use laws::{drain_law, measure_law, pace_law};
