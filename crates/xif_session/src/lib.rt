//! What the buses of a session say, and the rules that they keep: the definitions that the judge,
//! the core, the coprocessors and the laws over them share.
//!
//! A session is a list of buses, one a cycle, between two resets; definitions take it with the
//! newest bus first. `specs/Facts.antt` says what a session tells of each key: its latest use,
//! with its response, its operands, its decision and its end. `specs/Rules.antt` has the rules,
//! each a predicate on what came before and on the bus of a cycle, and `specs/Legal.antt` which
//! rule holds where, who owes it, and which sessions are legal. `specs/Uses.antt` has the list of
//! all uses of a session, of which `facts_law` shows that the latest use of each key is enough for
//! I2 and C3. `specs/Tests.antt` has the rules as tests, and the first fault of a cycle, which the
//! code of a judge cites: `rule_law` says that a test passes if and only if its rule holds, and
//! `fault_law` that the fault is that of the first rule that fails.
#![tactic(auto)]

mod fact;
mod fault;
mod idle;
mod laws;

pub use fact::{Decision, Fact, Response};
pub use fault::Fault;
pub use idle::idle_bus;
pub use laws::{facts_law, fault_law, rule_law};
