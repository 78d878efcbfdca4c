//! What a line of a log tells.
ghost use Rattle.std.specs.Prelude.{Some};
ghost use Rattle.run_log.specs.Log.{line_words, word_words};

use crate::hex::HexWord;
use crate::words::cause_word;
use inorder_machine::StopCause;
use std::fmt;

/// What a line tells of a cycle. It is printed without the cycle's number.
#[derive(Clone, Copy, Debug, PartialEq, Eq)]
pub enum Line {
    /// The instruction at this address retires.
    Retire { pc: u32, word: u32 },
    /// It writes this value to the register of this number.
    Write { register: u16, value: u32 },
    /// It stores the lowest `width` bytes of a value, the others of which are 0.
    Store { address: u32, width: u8, value: u32 },
    /// Of the instructions in flight all but the `keep` oldest are dropped, and the next dispatch
    /// is at the target.
    Cut { keep: u8, target: u32 },
    /// The instruction at this address is dispatched. `None` if there is no word.
    Dispatch { pc: u32, word: Option<u32> },
    /// A drain begins, and so many instructions stay.
    Drain { keep: u8 },
    /// The instruction at this address stops the machine.
    Stop { cause: StopCause, pc: u32 },
}

impl fmt::Display for Line {
    ghost output = { λ line. Some (line_words line) };

    fn fmt<W: fmt::Write>(&self, f: &mut fmt::Formatter<W>) -> fmt::Result {
        match *self {
            Line::Retire { pc, word } => write!(f, "retire {} {}", HexWord(pc), HexWord(word)),
            Line::Write { register, value } => write!(f, "write x{register} {}", HexWord(value)),
            Line::Store {
                address,
                width,
                value,
            } => write!(f, "store {} {width} {}", HexWord(address), HexWord(value)),
            Line::Cut { keep, target } => write!(f, "cut {keep} {}", HexWord(target)),
            Line::Dispatch { pc, word } => {
                write!(f, "dispatch {} {}", HexWord(pc), WordWords(word))
            }
            Line::Drain { keep } => write!(f, "drain {keep}"),
            Line::Stop { cause, pc } => write!(f, "stop {} {}", cause_word(cause), HexWord(pc)),
        }
    }
}

// The word of a dispatched instruction, if there is one.
#[derive(Clone, Copy)]
struct WordWords(Option<u32>);

impl fmt::Display for WordWords {
    ghost output = { λ word. Some (word_words word.0) };

    fn fmt<W: fmt::Write>(&self, f: &mut fmt::Formatter<W>) -> fmt::Result {
        match self.0 {
            None => f.write_str("none"),
            Some(word) => write!(f, "{}", HexWord(word)),
        }
    }
}
