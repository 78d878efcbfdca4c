//! The engine of the coprocessors: what they drive in a cycle, and their state after it.
//!
//! An `Engine` serves all harts of a core. In each cycle `drive` answers what the core drives, and
//! `clock` goes on by what the bus then has. `new` takes all memory; no other call takes any, or
//! refuses anything. All that `clock` asks of a bus is that a word is offered under a key of the
//! interface.
//!
//! The definitions are those of the crate `cycle_spec` (`State` and `Engine` there): an engine is
//! seen as its record `Engine`, `drive` is `engine_drive`, and `clock` is `engine_clock`. Here
//! `specs/Drives.antt` says that what is driven fits its signals, and `specs/Fits.antt` which keys
//! there are, and what holds of the lists that an engine keeps.
#![tactic(auto)]

mod ahead;
mod engine;
mod find;
mod settle;
mod steps;

pub use engine::Engine;
