//! Where the bits of a signal come from.

/// Where the bits of a signal come from.
#[derive(Clone, Copy, Debug, PartialEq, Eq)]
pub enum Source {
    /// A number that doesn't change.
    Fixed(u64),
    /// `width` bits of the values of an identifier code, from bit `low` on, which counts from the
    /// last digit as 0.
    Bits { code: u32, low: u32, width: u8 },
}

/// The signals that take bits of a code are among those with the numbers `from` to below `to`.
#[derive(Clone, Copy, Debug, PartialEq, Eq)]
pub struct Readers {
    pub from: u8,
    pub to: u8,
}

impl Readers {
    pub const NONE: Readers = Readers { from: 29, to: 0 };
}
