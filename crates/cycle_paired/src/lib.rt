//! Core and engine stay paired: each instruction that the core waits for is a use of the engine, in
//! the same order, and both know the same of its key, word, response, registers and decision.
//!
//! `specs/Paired.antt` says what that is, between the core of one hart and the engine, beside uses
//! of other harts. `specs/Reached.antt` says which states core and engine reach. `pairing_law`
//! says that they are paired in each of them, and `turn_law` that harts may take turns. That both
//! count the register transactions alike (`specs/Agreed.antt`) is `transactions_law`.
//!
//! The lemmas in `proofs/` are one file a step, each one step of both lists: `Starting`,
//! `Answering`, `Sending`, `Releasing`, `Cutting`, `Finishing`, `Executing`, `Ending`, `Applying`.
//! `Choosing` has what the core's choices say, `Staging`, `Deciding` and `Lasting` join the steps,
//! and `Cycling` joins these for a whole cycle.
#![tactic(auto)]

mod laws;

pub use laws::{pairing_law, transactions_law, turn_law};
