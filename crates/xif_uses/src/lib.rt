//! The table of uses: of each key, the latest instruction that was offered under it, and what
//! happened to it.
//!
//! The sides of the judge keep a `UseTable` by its calls, each an event on the interface. Its
//! contract is the session's own text (`xif_session`): what represents the facts of a session
//! represents those after the event. All memory is taken by `UseTable::new`. `Handshake` follows
//! one channel's transactions from cycle to cycle. `specs/Table.antt` says what a table holds and
//! which facts it represents, `specs/Handshake.antt` when a transaction continues.
#![tactic(auto)]

mod entry;
mod handshake;
mod places;
mod table;
mod undecided;

pub use entry::Use;
pub use handshake::{Handshake, Phase};
pub use table::{Decided, UseTable};
pub use xif_session::{Decision, Fault, Response};
