//! The core keeps the rules of its side beside any coprocessor that keeps those of its own.
//!
//! `specs/Answered.antt` has the core beside any coprocessor. Which rules are whose is said by
//! `xif_session` (`specs/Legal.antt`), and the law is that of `src/laws.rt`.
//!
//! How it is proved: what the coprocessor has seen is kept as the uses of an engine
//! (`proofs/Ghost.antt`). In each cycle these stay paired with the entries of the core
//! (`proofs/Joined.antt`), and stay what the buses say (`proofs/Told.antt`); so the lemmas of
//! `trace_laws` on the core beside its engine hold here too (`proofs/Cycle.antt`). The engine asks
//! for no registers of a word that it refuses, and another coprocessor may: that is struck out
//! first, since neither the core nor a rule reads it (`proofs/Plain.antt`,
//! `proofs/PlainSteps.antt`, `proofs/PlainFacts.antt`).
#![tactic(auto)]

mod laws;

pub use laws::core_law;
