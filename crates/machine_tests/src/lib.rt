//! Tests of the libraries of the in-order machine: the instruction table, memories and images, the
//! coprocessor units, predictors and scripts.
#![tactic(auto)]

#[cfg(test)]
mod coprocessors;
#[cfg(test)]
mod drive;
#[cfg(test)]
mod images;
#[cfg(test)]
mod machine;
#[cfg(test)]
mod rv32;
