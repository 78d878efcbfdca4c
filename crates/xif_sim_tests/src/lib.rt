//! Tests of the libraries of the simulator, by what they make public. They stand apart from the
//! libraries so that each library is proved once, since one with tests of its own is proved with
//! them and without.
#![tactic(auto)]

#[cfg(test)]
mod engine;
#[cfg(test)]
mod flight;
#[cfg(test)]
mod log;
#[cfg(test)]
mod simulate;
