//! Tests of the libraries of the judge, by what they make public. They stand apart from the libraries so that
//! each library is proved once, since one with tests of its own is proved with them and without.
#![tactic(auto)]

#[cfg(test)]
mod base;
#[cfg(test)]
mod issue;
#[cfg(test)]
mod judge;
#[cfg(test)]
mod maps;
#[cfg(test)]
mod pieces;
#[cfg(test)]
mod signals;
#[cfg(test)]
mod uses;
#[cfg(test)]
mod vcd_reader;
#[cfg(test)]
mod vcd_writer;
#[cfg(test)]
mod waveforms;
