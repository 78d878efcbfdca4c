//! Waveforms as text: value change dumps with four values (IEEE 1364-2005, clause 18).
//!
//! A reader takes a text in pieces and returns its items, its times and its changes of values, in
//! order, and the variables that it declares; a writer returns the text of a list of buses.
//!
//! The layers above may use `Reader`. What it returns is what the text says, however it is cut, and
//! its fault is the text's. They may cite `grammar_law` (what a text says is what its phrases say,
//! and its fault is that of the first phrase that is not well formed), `fault_law` (the fault of a
//! prefix is the text's) and `reading_law` (every reading is consistent). They may use `Writer`,
//! whose pieces joined are the text of the buses, and cite `written_texts_read_back` (this text has
//! a reading, and which).
//!
//! The definitions stand in `specs/`. To be believed, in this order: `Words` (what single tokens
//! are), `Tokens` (the tokens of a text), `Codes` (identifier codes), `Phrases` (the grammar),
//! `Reader` (which text a reader represents), `Sizes` (what every reading keeps), `Written` (the
//! text of a list of buses, and what it says), `Writing` (which buses a writer has written),
//! `Vectors` (which number digits write). `Grammar` (what a token does) and `Reading` (what tokens
//! do together) are the reader's automaton, which the contracts cite and which `grammar_law` ties
//! to `Phrases`. `Digits`, `Scanner`, `Steps`, `Sound` and `ShortCodes` are internal.
#![tactic(auto)]

mod binary;
mod codes;
mod declaration;
mod declare;
mod digit;
mod fault;
mod item;
mod keyword;
mod laws;
mod lines;
mod numeral;
mod read_back;
mod reader;
mod scanner;
mod scopes;
mod short_codes;
mod short_digits;
mod span;
mod state;
mod step;
mod stop;
mod token;
mod value;
mod vector;
mod word;
mod writer;

pub use declaration::{Declarations, Variable};
pub use digit::{Digit, Digits};
pub use fault::{FeedFail, VcdCause, VcdFault};
pub use item::Item;
pub use laws::{fault_law, grammar_law, reading_law};
pub use read_back::written_texts_read_back;
pub use reader::Reader;
pub use writer::Writer;
