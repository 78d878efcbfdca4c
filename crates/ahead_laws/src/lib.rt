//! Laws of the machine that runs ahead of the in-order machine, which is defined in `ahead_spec`:
//! each is the contract of a call that does nothing.
//!
//! `ahead` has the theorem that any events refine the in-order machine, and what each event keeps.
//! `table` and `lanes` have what it rests on: what the tables say of what an instruction writes,
//! where it leads and when it stops, and of what a word takes at its register handshake. `changes`
//! says that an event changes an entry as a step of a cycle does.
//!
//! A law over cycles cites the lemmas of `proofs/` too, above all `keeps` of `Retiring`, which has
//! a case for each event. `Examples` there computes events that may happen.
#![tactic(auto)]

pub mod ahead;
pub mod changes;
pub mod lanes;
pub mod table;
