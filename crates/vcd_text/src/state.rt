//! What the tokens so far say that the next ones depend on.
use crate::codes::Codes;
use crate::keyword::Keyword;
use crate::scopes::Scopes;
use crate::word::Words;
use crate::{Declarations, Digits};

/// What is open, with the offset of the token that opened it.
#[derive(Drop)]
pub enum Part {
    Nothing,
    /// A block of the declarations and its first words.
    Block {
        at: u64,
        keyword: Keyword,
        words: Words,
    },
    /// A block that is passed over.
    Skipped {
        at: u64,
    },
    /// The digits of a change, before its code.
    Vector {
        at: u64,
        digits: Digits,
    },
    /// The first token of a change of a real number or a string, before its second.
    Passed {
        at: u64,
    },
}

/// The state of a reading between two tokens.
#[derive(Drop)]
pub struct State {
    pub scopes: Scopes,
    pub codes: Codes,
    pub variables: Declarations,
    pub is_declared: bool,
    /// The last time.
    pub time: u64,
    pub part: Part,
}
