//! Numbers by their lowest bits.
ghost use Rattle.std.specs.Prelude.{◌≡◌, ◌≤◌};
ghost use Rattle.xif_base.specs.Bits.{ones_below};

/// The number whose lowest `count` bits are 1, which is the largest number of `count` bits.
pub fn ones_below(count: u8) -> u64
    requires { count ≤ 64 }
    ensures { result ≡ ones_below count }
{
    if count == 64 {
        u64::MAX
    } else {
        (1 << count) - 1
    }
}
