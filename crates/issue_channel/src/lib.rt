//! The issue and register channels of the judge: rules I1 to I5 and G1 to G5.
//!
//! `IssueSide` follows the issue and the register transactions from cycle to cycle. Its `step`
//! returns the first of its rules that fails in a cycle, and brings the table of uses up to the
//! cycle's starts, responses and operands. `specs/Following.antt` says which session a side and a
//! table follow, and `specs/Steps.antt` is internal; the rules are those of `xif_session`.
#![tactic(auto)]

mod changes;
mod fault;
mod issue_rules;
mod register_rules;
mod side;

pub use side::IssueSide;
