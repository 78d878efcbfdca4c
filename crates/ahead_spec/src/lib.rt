//! The machine that runs ahead of the in-order machine: definitions alone, for every order in which
//! instructions are dispatched, executed, offered to the coprocessors, cut and retired.
//!
//! Its instructions in flight are those of the core, each with what the coprocessors made of it.
//! Its steps are events, each with a guard that says when it may happen. The definitions are in
//! `specs/`, to be read in this order:
//!
//! - `Walk`: what an instruction in flight does in a state of the in-order machine, and the states
//!   along the instructions in flight;
//! - `Operands`: what a word of a coprocessor reads and computes;
//! - `World`: the machine, and what an event makes of it;
//! - `Guards`: when an event may happen;
//! - `Refines`: what holds of the machine after any events, beside the in-order machine;
//! - `Pairs` and `Invariant`: what each event keeps, from which that follows.
//!
//! Nothing here speaks of cycles or signals: a cycle of core and coprocessors is a list of events.
//! The laws over these definitions are in `ahead_laws`.
#![tactic(auto)]
