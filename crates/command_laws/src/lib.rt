//! What two commands say one behind the other, and that one is always answered.
//!
//! The commands are those of `xif_cli`, by what their words mean over the files that there are.
//! `trace_is_judged_legal` is about `run`, and `judge` on the trace that it wrote: the verdict is
//! `legal cycles=N`, with N the number of cycles in the report of the run.
//! `judge_after_run_prints_legal` says the same of two calls of the program. `specs/Commands.antt`
//! has what they say of the two calls. `gen_is_answered` says that a call of `gen` is never
//! refused, and what its answer prints.
//!
//! The first two rest on four laws: core and engine keep the rules (`trace_laws`); what they show
//! fits the widths of the signals (`width_laws`); so the text of the waveform has samples that read
//! as the buses again; and what is judged of the text is what the rules say of the buses
//! (`waveform_laws`).
//!
//! In `proofs/`, `Jobs` has what holds of each job that is read, `Images` that a memory has bytes,
//! `Sizes` how long a waveform is at most, `Cycles` how many cycles a run has at most, `Runs` the
//! run of a job, `Verdicts` what `judge` means behind it, `Calls` what the two calls print, and
//! `Generated` what `gen` means.
#![tactic(auto)]

mod laws;

pub use laws::{gen_is_answered, judge_after_run_prints_legal, trace_is_judged_legal};
