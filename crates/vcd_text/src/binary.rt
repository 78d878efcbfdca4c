//! Values of binary digits, which nearly all are.
ghost use Rattle.std.specs.Prelude.{◌≡◌, ◌≤◌, ◌<◌, ◌%◌, Some, length, IfSome};
ghost use Rattle.vcd_text.specs.Words.{digits};
ghost use Rattle.vcd_text.specs.Vectors.{IsWritten};

use crate::short_digits::ShortDigits;
use crate::token::is_binary;
use std::simd::prelude::*;

/// How many digits `turn_number` reads.
const TURN: usize = 8;

/// The digits that the bytes are, if each is `0` or `1`.
// Inlined, as all below: most vectors are short, and a call would take as long as their digits.
#[inline(always)]
pub fn binary_digits(bytes: &[u8]) -> Option<ShortDigits>
    requires { length bytes.now ≤ 64 }
    ensures { IfSome result (λ found. digits bytes.now ≡ Some found) }
{
    let (turns, rest) = bytes.split_at(bytes.len() / TURN * TURN);
    let high = number_of_turns(turns)?;
    let low = number_of_bytes(rest)?;
    let number = (high << rest.len()) + low;
    Some(ShortDigits::binary(bytes.len(), number))
}

/// The number that the bytes write in binary, if each is `0` or `1`. It goes in turns of a fixed
/// length, which take less work than a test of each byte.
#[inline(always)]
fn number_of_turns(bytes: &[u8]) -> Option<u64>
    requires few { length bytes.now ≤ 64 }
    requires whole { length bytes.now % 8 ≡ 0 }
    ensures { IfSome result (IsWritten bytes.now) }
{
    let mut number = 0;
    let mut len = 0;
    while len < bytes.len() {
        let turn = turn_number(&bytes[len..len + TURN])?;
        number = number * 256 + turn;
        len += TURN;
    }
    Some(number)
}

/// The number that the bytes of a turn write in binary, if each is `0` or `1`.
#[inline(always)]
fn turn_number(bytes: &[u8]) -> Option<u64>
    requires { length bytes.now ≡ 8 }
    ensures { IfSome result (IsWritten bytes.now) }
{
    // The first lane is the lowest bit, which is written last.
    let lanes = u8x8::from_array([
        bytes[7], bytes[6], bytes[5], bytes[4], bytes[3], bytes[2], bytes[1], bytes[0],
    ]);
    let below = lanes.simd_lt(u8x8::splat(b'0')).to_bitmask();
    let above = lanes.simd_gt(u8x8::splat(b'1')).to_bitmask();
    if below != 0 || above != 0 {
        return None;
    }
    Some(lanes.simd_eq(u8x8::splat(b'1')).to_bitmask())
}

/// The number that the bytes write in binary, if each is `0` or `1`.
#[inline(always)]
fn number_of_bytes(bytes: &[u8]) -> Option<u64>
    requires { length bytes.now ≤ 64 }
    ensures { IfSome result (IsWritten bytes.now) }
{
    let mut number = 0;
    for byte in bytes {
        if !is_binary(*byte) {
            return None;
        }
        number = number * 2 + u64::from(*byte - b'0');
    }
    Some(number)
}
