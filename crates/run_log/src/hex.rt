//! Hexadecimal numbers of a fixed length.
ghost use Rattle.std.specs.Prelude.{Some};
ghost use Rattle.run_log.specs.Words.{hex_word, hex_double};

use std::fmt;

/// A word of 32 bits as it is printed: eight lower-case hexadecimal digits after 0x.
#[derive(Clone, Copy, Debug, PartialEq, Eq)]
pub struct HexWord(pub u32);

/// A double word, of 64 bits: sixteen digits after 0x.
#[derive(Clone, Copy, Debug, PartialEq, Eq)]
pub struct HexDouble(pub u64);

impl fmt::Display for HexWord {
    ghost output = { λ word. Some (hex_word word.0) };

    fn fmt<W: fmt::Write>(&self, f: &mut fmt::Formatter<W>) -> fmt::Result {
        write!(f, "0x{:08x}", self.0)
    }
}

impl fmt::Display for HexDouble {
    ghost output = { λ double. Some (hex_double double.0) };

    fn fmt<W: fmt::Write>(&self, f: &mut fmt::Formatter<W>) -> fmt::Result {
        write!(f, "0x{:016x}", self.0)
    }
}
