//! Tests of the job file and of whole calls of the program over files and an output in memory.
#![tactic(auto)]

#[cfg(test)]
mod jobs;
#[cfg(test)]
mod program;
#[cfg(test)]
mod run;
