//! Every run of core and coprocessors dispatches eagerly along its predictions.
//!
//! `specs/Flights.antt` has the instructions in flight as a reader of the log and of the trace of a
//! run finds them, the predictor's answers along them, and the in-order machine walked along them.
//! `specs/Eager.antt` says what an eager cycle is: when an instruction is dispatched, from which
//! address and with which word, which word is offered to the coprocessors, and what cuts.
//!
//! The laws, each the contract of a call that does nothing:
//!
//! - `the_flight_is_told`: what log and trace say is in flight is what the core has in flight, in
//!   each cycle of a run;
//! - `every_run_is_eager`: each cycle of a run is eager, for every predictor, program, set of
//!   units, script, window and budget.
//!
//! In `proofs/`, `Views` has what each step of a cycle changes in what log and trace say,
//! `Refusing` that a refused word is known to stop, `Following` what each cycle keeps, `Choosing`
//! what a cycle chooses, `Along` the walk, `Turning` the cuts of control transfers, `Cycled` one
//! cycle and `Whole` whole runs. `Examples` computes the instructions in flight of some runs.
#![tactic(auto)]

mod laws;

pub use laws::{every_run_is_eager, the_flight_is_told};
