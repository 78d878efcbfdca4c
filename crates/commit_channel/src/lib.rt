//! The commit channel of the judge: rules C1 to C3.
//!
//! `CommitSide::step` returns the first of its rules that fails in a cycle, decides uses, and cuts
//! the open issue transaction where a kill covers it. The rules and their tests are those of
//! `xif_session`; `specs/Committed.antt` says which rule a refused commit breaks.
#![tactic(auto)]

mod side;

pub use side::CommitSide;
