//! The instructions in flight of a speculative core: dispatched, neither retired nor cut.
//!
//! The core keeps a [`FlightTable`] by its calls, each a step of `cycle_spec`, and reads from it
//! what the next step depends on: an operand, the entry that executes, the uses that are certain to
//! retire, a free id. The contract of each call is a definition of `cycle_spec`'s `Flight` on the
//! list of the entries, the oldest first. `specs/Table.antt` says what a table is seen as.
//!
//! The entries lie in a ring of the window's size, whose memory `FlightTable::new` takes. Beside it
//! stands a rename index, so that the youngest writer of a register is found without a search; what
//! holds of it is in `specs/Index.antt`.
#![tactic(auto)]

mod change;
mod entry;
mod older;
mod registers;
mod search;
mod table;
mod writers;

pub use cycle_spec::{Entry, EntryKind, Operand};
pub use entry::{Wanted, new_entry};
pub use registers::Registers;
pub use table::FlightTable;
