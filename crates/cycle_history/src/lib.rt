//! What the uses of a run are: those of the words that retire, and others, which are killed.
//!
//! `specs/Words.antt` has the words of the in-order machine that the units compute, each with the
//! state in which that machine executes it. `specs/Uses.antt` says of each use of a run which of
//! them it is for, and what the buses carry for it. `uses_law` says it of every run of
//! `cycle_spec`.
//!
//! How it is proved: behind every cycle, the accepted uses that aren't killed are, in the order of
//! their starts, those of the words that retired and then those of the accepted instructions in
//! flight (`proofs/Past.antt`). `Change` and `Steps` have what a cycle makes of a use and of an
//! instruction in flight, each as one function. `Entering` has the use that a cycle accepts,
//! `Leaving` those that it kills, `Results` and `Ends` those that have their result, and `Listing`
//! joins them. `Going` has a cycle of core and engine, `Runs` the cycle that stops the machine, and
//! `Whole` goes from the first cycle of a run to its last. `Examples` computes a small run.
#![tactic(auto)]

mod laws;

pub use laws::uses_law;
