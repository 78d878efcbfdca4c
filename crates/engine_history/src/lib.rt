//! What the engine of the coprocessors keeps as numbers, flags and a short list is what the whole
//! history of its session says.
//!
//! A session is a list of buses, one a cycle, the newest first. `specs/Lives.antt` has its history:
//! every use that was ever started, with the cycles of its handshakes, of its decision and of its
//! end. `specs/Channels.antt` counts the transactions of a channel, `specs/Told.antt` says which
//! uses, ready cycles, accumulators and results the history tells, and `specs/Runs.antt` what a run
//! of the engine is, and what the core owes in it. The engine is that of `cycle_spec`.
//!
//! The laws, each the contract of a call that does nothing:
//!
//! - `history_law`: the history is that of the rules of a session, and uses are answered in order;
//! - `counts_law`, `fields_law`: what the engine counts and what it keeps of each use is what the
//!   history tells, whatever the core does;
//! - `uses_law`, `units_law`: beside a core that keeps three of its rules, so are the ready cycle,
//!   the result and the end of each use, and the accumulators of each hart.
#![tactic(auto)]

mod laws;

pub use laws::{counts_law, fields_law, history_law, run_law, units_law, uses_law};
