//! The speculative core: what it drives in a cycle, and its state after it.
//!
//! A [`Core`] fetches, predicts, executes out of order and retires in order, and offers the words
//! that are no instruction of RV32IM to the coprocessors. In each cycle `drive` answers what the
//! core drives, `accepts` whether it takes the result that is offered, and `clock` goes on by what
//! the bus then has and returns what the core did. `begin_drain` has the next cycle drop what is
//! speculative, and `resume` ends a drain. `new` takes all memory; no other call takes any, or
//! refuses anything, and `clock` asks nothing of the bus.
//!
//! The definitions are those of the crate `cycle_spec` (`State`, `Choices` and `Core` there): a
//! core is seen as its record `Core`, `drive` is `core_drive`, `accepts` is `core_accepts`, and
//! `clock` is `core_clock` with `core_log`. Here `specs/Fits.antt` says how far a core can count.
//!
//! All choices of a cycle are made from the state at its start (choices.rt), and then one small
//! change after the other is made by them (steps.rt, retire.rt, dispatch.rt, clock.rt). A [`Core`]
//! keeps them beside the state (state.rt), so that they are made once a cycle.
#![tactic(auto)]

mod choices;
mod clock;
mod commit;
mod control;
mod cpu;
mod cut;
mod dispatch;
mod drive;
mod execution;
mod oldest;
mod present;
mod retire;
mod state;
mod steps;

pub use cpu::Core;
