//! Job files: a TOML text that says what one run of the simulator is to do.
//!
//! The layers above may use `Job::read`, which returns the job that the bytes of a file say, or the
//! first fault in the order of the fields, the types that a `Job` is made of, and `Field::name` for
//! the name of the field that a fault is reported at. What holds of every job that is read is
//! `IsLawfulJob` of `specs/Ranges`.
//!
//! The definitions stand in `specs/`: `FieldTable` has a line for each field, with its range and
//! its default, in the order in which faults are reported, and what a job file says as a whole
//! (`read_of`); `Readers` says what each kind of field is, `Words` which words an enum has,
//! `Outcome` how a fault ends reading, `Document` which bytes are TOML, `Field` the names of the
//! fields, `Ranges` what holds of a job, and `Tables` how the definitions see the tables of the
//! code.
#![tactic(auto)]

mod addresses;
mod core_table;
mod document;
mod field;
mod image;
mod job;
mod map;
mod memory;
mod params;
mod predictor;
mod readers;
mod script;
mod trace;
mod units;

pub use addresses::Addresses;
pub use field::{Field, JobFault};
pub use image::{ImageKind, ImageSource};
pub use job::Job;
pub use predictor::Kind;
