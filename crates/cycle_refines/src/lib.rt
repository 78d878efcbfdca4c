//! A run of core and engine refines the in-order machine: it leaves what the in-order machine
//! leaves after as many instructions, and stops where that stops.
//!
//! `specs/RefinesInOrder.antt` says what that means. `every_run_refines_the_in_order_machine` says
//! it of every run of `cycle_spec`: for every set of units, program, predictor, script, window and
//! budget.
//!
//! `proofs/Running.antt` goes from cycle to cycle: each one is a list of events of the machine that
//! runs ahead (`cycle_events`), and any such events refine the in-order machine (`ahead_laws`).
#![tactic(auto)]

mod laws;

pub use laws::every_run_refines_the_in_order_machine;
