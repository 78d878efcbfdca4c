//! What the command `gen` simulates: how each such run ends, and what it leaves.
//!
//! `specs/Sums.antt` says it of one run. `gen_ends_by_ecall` and `gen_sums` say it of the run of
//! each seed and count, for every predictor.
//!
//! In `proofs/`, `Words` has what the words of the program are, `Steps` what each of them does on
//! the in-order machine, and `Rounds` that machine from the first instruction to the ECALL. `Pace`
//! shows that the budget is enough. `Ending` carries it over to the run: a run leaves what the
//! in-order machine leaves after as many instructions (`cycle_refines`), and if it ended by its
//! budget it would have retired more than there are (`pace_laws`).
#![tactic(auto)]

mod laws;

pub use laws::{gen_ends_by_ecall, gen_sums};
