//! Sets of register flags. Field 0 of a set is the number that its bits make.
ghost use Rattle.std.specs.Prelude.{⊤, ◌≡◌, ◌<◌, ◌↔◌, [], ◌∷◌, codes, IsTrue, IsSome, IfSome};
ghost use Rattle.std.specs.Int.RustNames.{bit_and};
ghost use Rattle.xif_base.specs.Params.{IsInRange};
ghost use Rattle.xif_base.specs.Flags.{even_bit, odd_bit};

use crate::Params;
use bitflags::{Flag, Flags, bitflag_items};

/// The halves of lanes that an instruction reads (CV-X-IF 1.0.0, `register_read` of the issue
/// response). A flag represents 32 bits of a lane. `even_bit` and `odd_bit` number the flags.
#[derive(Clone, Copy, Debug, PartialEq, Eq)]
pub struct ReadFlags(u8);

bitflag_items! {
    impl ReadFlags: u8 {
        const BIT0 = 1;
        const BIT1 = 2;
        const BIT2 = 4;
        const BIT3 = 8;
        const BIT4 = 16;
        const BIT5 = 32;
    }
}

impl Flags for ReadFlags {
    type Bits = u8;

    ghost exact = { ⊤ };

    ghost table = { (codes "BIT0", 1)
        ∷ (codes "BIT1", 2)
        ∷ (codes "BIT2", 4)
        ∷ (codes "BIT3", 8)
        ∷ (codes "BIT4", 16)
        ∷ (codes "BIT5", 32)
        ∷ [] };

    ghost set_of = { λ flags. flags.0 };

    fn flags<'a>() -> &'a [Flag<ReadFlags>] {
        ReadFlags::FLAGS
    }

    fn bits(&self) -> u8 {
        self.0
    }

    fn from_bits_retain(bits: u8) -> ReadFlags {
        ReadFlags(bits)
    }
}

impl ReadFlags {
    /// The number of the bit that represents the low half of a lane.
    pub fn even_bit(params: &Params, lane: u8) -> u8
        requires params { IsInRange params.now }
        requires lane { lane < params.now.num_rs }
        ensures { result ≡ even_bit params.now lane }
    {
        lane + lane.min(params.dual_read)
    }

    /// The number of the bit that represents the high half of a lane, which only the lanes below
    /// X_DUALREAD have.
    pub fn odd_bit(params: &Params, lane: u8) -> Option<u8>
        requires params { IsInRange params.now }
        requires lane { lane < params.now.num_rs }
        ensures { result ≡ odd_bit params.now lane }
    {
        if lane < params.dual_read {
            Some(ReadFlags::even_bit(params, lane) + 1)
        } else {
            None
        }
    }

    /// Whether each flag of the other set is in this one.
    pub fn contains(&self, other: Self) -> bool
        ensures { IsTrue result ↔ (bit_and self.now.0 other.0 ≡ other.0) }
    {
        Flags::contains(self, other)
    }

    /// The number that the bits of the set make.
    pub fn bits(&self) -> u8
        ensures { result ≡ self.now.0 }
    {
        self.0
    }

    /// The set with these bits: `None` if and only if a bit above 5 is set.
    pub fn from_bits(bits: u8) -> Option<Self>
        ensures some { IsSome result ↔ (bits < 64) }
        ensures value { IfSome result (λ flags. flags.0 ≡ bits) }
    {
        <ReadFlags as Flags>::from_bits(bits)
    }
}

/// The registers that a result writes (CV-X-IF 1.0.0, `writeback` of the issue response and `we` of
/// the result). Bit 0 represents rd, the even register of a pair, and bit 1 rd + 1.
#[derive(Clone, Copy, Debug, PartialEq, Eq)]
pub struct WriteFlags(u8);

bitflag_items! {
    impl WriteFlags: u8 {
        const RD = 1;
        const NEXT = 2;
    }
}

impl Flags for WriteFlags {
    type Bits = u8;

    ghost exact = { ⊤ };

    ghost table = { (codes "RD", 1) ∷ (codes "NEXT", 2) ∷ [] };

    ghost set_of = { λ flags. flags.0 };

    fn flags<'a>() -> &'a [Flag<WriteFlags>] {
        WriteFlags::FLAGS
    }

    fn bits(&self) -> u8 {
        self.0
    }

    fn from_bits_retain(bits: u8) -> WriteFlags {
        WriteFlags(bits)
    }
}

impl WriteFlags {
    /// Whether each flag of the other set is in this one.
    pub fn contains(&self, other: Self) -> bool
        ensures { IsTrue result ↔ (bit_and self.now.0 other.0 ≡ other.0) }
    {
        Flags::contains(self, other)
    }

    /// The number that the bits of the set make.
    pub fn bits(&self) -> u8
        ensures { result ≡ self.now.0 }
    {
        self.0
    }

    /// The set with these bits: `None` if and only if a bit above 1 is set.
    pub fn from_bits(bits: u8) -> Option<Self>
        ensures some { IsSome result ↔ (bits < 4) }
        ensures value { IfSome result (λ flags. flags.0 ≡ bits) }
    {
        <WriteFlags as Flags>::from_bits(bits)
    }
}
