//! The operations and the entries, and what the table says of an operation.
ghost use Rattle.std.specs.Prelude.{◌≡◌};
ghost use Rattle.coproc_config.specs.Table.{operation_line};

/// An operation of a coprocessor. a, b and c are the low halves of lanes 0, 1 and 2, a pair is a
/// whole lane of 64 bits, and Q is the accumulator that the entry names, modulo 2^64.
#[derive(Clone, Copy, Debug, PartialEq, Eq)]
pub enum Op {
    /// Bits `low` to `low + len - 1` of a, extended by 0.
    ExtractU,
    /// The same, extended by its top bit.
    ExtractS,
    /// b, with bits `low` to `low + len - 1` replaced by the low `len` bits of a.
    Insert,
    /// Bit i of a at 31 - i.
    Reverse,
    /// The number of 1 bits of a.
    Ones,
    /// a where c has 1, b where c has 0.
    Merge,
    /// Q becomes 0.
    AccClear,
    /// Q becomes Q + a, with a unsigned.
    AccAdd,
    /// Q becomes Q + a * b, with both signed.
    AccMac,
    /// The low half of Q.
    AccReadLow,
    /// The high half of Q.
    AccReadHigh,
    /// The low half of the old Q; Q becomes a, unsigned.
    AccSwap,
    /// The sum of two pairs, modulo 2^64.
    PairAdd,
    /// The pair a * b, unsigned.
    PairMul,
    /// The pair Q.
    PairRead,
    /// The sum of the halves of a pair, modulo 2^32.
    PairSum,
}

/// An entry of a unit: the words that it takes, and what it does with them. It takes a word whose
/// bits under `mask` are `matched`. `acc` is the number of an accumulator of the unit, 0 to 15;
/// `low` (0 to 31) and `len` (1 to 32) name bits of a word, `low` to `low + len - 1`. An operation
/// that doesn't name them ignores them.
#[derive(Clone, Copy, Debug, PartialEq, Eq)]
pub struct Entry {
    pub mask: u32,
    pub matched: u32,
    pub op: Op,
    pub acc: u8,
    pub low: u8,
    pub len: u8,
}

/// The lanes that an operation reads: the low halves of some, or pairs.
#[derive(Clone, Copy, Debug, PartialEq, Eq)]
pub enum Reads {
    Nothing,
    A,
    AB,
    ABC,
    PairA,
    PairAB,
}

/// The registers that an operation writes.
#[derive(Clone, Copy, Debug, PartialEq, Eq)]
pub enum Writes {
    Nothing,
    One,
    Pair,
}

/// What of its entry an operation uses.
#[derive(Clone, Copy, Debug, PartialEq, Eq)]
pub enum Names {
    Nothing,
    /// `low` and `len`.
    Field,
    /// `acc`.
    Accumulator,
}

impl Op {
    /// The lanes that the operation reads.
    pub(crate) fn reads(self) -> Reads
        ensures { result ≡ (operation_line self).reads }
    {
        match self {
            Op::AccClear | Op::AccReadLow | Op::AccReadHigh | Op::PairRead => Reads::Nothing,
            Op::ExtractU | Op::ExtractS | Op::Reverse | Op::Ones | Op::AccAdd | Op::AccSwap =>
                Reads::A,
            Op::Insert | Op::AccMac | Op::PairMul => Reads::AB,
            Op::Merge => Reads::ABC,
            Op::PairSum => Reads::PairA,
            Op::PairAdd => Reads::PairAB,
        }
    }

    /// The registers that it writes.
    pub(crate) fn writes(self) -> Writes
        ensures { result ≡ (operation_line self).writes }
    {
        match self {
            Op::AccClear | Op::AccAdd | Op::AccMac => Writes::Nothing,
            Op::PairAdd | Op::PairMul | Op::PairRead => Writes::Pair,
            _ => Writes::One,
        }
    }

    /// What it uses of its entry beside the words that the entry takes.
    pub(crate) fn names(self) -> Names
        ensures { result ≡ (operation_line self).names }
    {
        match self {
            Op::ExtractU | Op::ExtractS | Op::Insert => Names::Field,
            Op::AccClear | Op::AccAdd | Op::AccMac => Names::Accumulator,
            Op::AccReadLow | Op::AccReadHigh | Op::AccSwap => Names::Accumulator,
            Op::PairRead => Names::Accumulator,
            _ => Names::Nothing,
        }
    }
}
