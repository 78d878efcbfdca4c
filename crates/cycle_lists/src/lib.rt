//! What the laws over cycles need of lists and runs: facts of each element and of each two, filters
//! and places, the order of what a core keeps, and that what each cycle keeps holds at a run's end.
//!
//! `specs/Lists.antt` has the words for lists, `specs/Order.antt` what it means that the entries of
//! a core are in order. `order_law` says that they always are, `free_id_law` that the id of the
//! next dispatch is free. The lemmas in `proofs/` are for the crates above; `proofs/Runs.antt` is
//! the induction over the cycles of a run, up to a stop or through the drain.
#![tactic(auto)]

mod laws;

pub use laws::{free_id_law, order_law};
