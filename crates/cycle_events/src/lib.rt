//! Each cycle of core and engine is a list of events of the machine that runs ahead of the in-order
//! machine (`ahead_spec`).
//!
//! `specs/Shown.antt` says when that machine shows what core and engine keep: its instructions in
//! flight are those of the core, with the lanes and the results of their uses in the engine, and
//! registers, memory, retired instructions and accumulators are the same. `specs/Becomes.antt` says
//! what it means that events, each of which may happen where it does, lead somewhere.
//! `each_cycle_is_a_list_of_events` is the law.
//!
//! The lemmas in `proofs/` are one file a step: `Answered`, `Sent`, `Decided`, `Finished`,
//! `Executed`, `Retired` and `Applied` turn each into an event, `Wide` has what the steps leave of
//! each entry, `Chosen` and `Choosing` what the core's choices say, and `Halving`, `Settling` and
//! `Cycled` join the steps.
#![tactic(auto)]

mod laws;

pub use laws::each_cycle_is_a_list_of_events;
