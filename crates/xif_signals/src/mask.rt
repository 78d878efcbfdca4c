//! The low bits of numbers of 64 bits.
ghost use Rattle.std.specs.Prelude.{◌≡◌, ◌≤◌, ◌<◌, ◌%◌, ◌^◌};

use xif_base::ones_below;

/// The lowest `width` bits of a number.
#[tactic(auto, using(crate::proofs::Bits::and_ones, crate::proofs::Bits::low_lt))]
pub(crate) fn low_bits(bits: u64, width: u8) -> u64
    requires { width ≤ 64 }
    ensures bits { result ≡ bits % 2 ^ width }
    ensures below { result < 2 ^ width }
{
    bits & ones_below(width)
}
