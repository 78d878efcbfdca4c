//! The headline: what holds of every run, in one record.
//!
//! A run leaves what the in-order machine leaves, its coprocessors compute what retires, its
//! signals are legal by the rules of the judge, it dispatches eagerly, and it keeps pace.
//! `specs/Headline.antt` says so of a run alone, and `every_run_is_faithful` of every run of
//! `cycle_spec`: for every predictor, and for every setup that `CanRun` allows.
//!
//! It joins the laws of `cycle_refines`, `cycle_history`, `trace_laws`, `eager_laws` and
//! `pace_laws`. In place of a fact about what is in flight at the end of a run it has that nothing
//! is, by the law of the drain.
#![tactic(auto)]

mod laws;

pub use laws::every_run_is_faithful;
