//! Core and engine keep the rules of the interface.
//!
//! The rules are those of `xif_session`, which says in `specs/Legal.antt` who owes which of them;
//! core and engine are those of `cycle_spec`. `specs/Driven.antt` has the engine beside any core,
//! and the core beside any coprocessor; `specs/Sessions.antt` has the sessions of both. The laws
//! are those of `src/laws.rt`, each the contract of a call that does nothing.
//!
//! How it is proved: the engine's uses are the latest uses of their keys, as the buses show them
//! (`proofs/EngineTold.antt`), and each step of a cycle keeps this. The live entries of the core
//! are the live uses of the engine (`cycle_paired`), so the buses show the same of them
//! (`proofs/CoreRules.antt`). What a register transaction shows stays because a register that is
//! there for an instruction in flight stays there (`proofs/Views.antt`); and each half of a lane
//! shows through what the other half is, since registers, and what entries and results write to
//! them, are words (`width_laws`, `proofs/SmallCore.antt`, `proofs/SmallEngine.antt`).
#![tactic(auto)]

mod laws;

pub use laws::{engine_law, run_law, session_law};
