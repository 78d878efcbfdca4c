//! How far a word goes.
ghost use Rattle.std.specs.Prelude.{◌≡◌, ◌<◌, ◌≤◌, true, take, length};
ghost use Rattle.std.specs.List.{list_all};
ghost use Rattle.vcd_text.specs.Words.{is_ink};
ghost use Rattle.vcd_text.specs.Scanner.{IsWholeWord};

use crate::token::is_white;
use std::simd::prelude::*;

/// How many bytes `word_len` looks at in one turn.
const TURN: usize = 16;

/// How many bytes come before a byte that may be white space: none of them is. It goes in turns of
/// a fixed length, which take less work than a test of each byte.
#[inline(always)]
pub fn word_len(bytes: &[u8]) -> usize
    ensures within { result ≤ length bytes.now }
    ensures ink { list_all is_ink (take result bytes.now) ≡ true }
{
    let mut len = 0;
    while TURN <= bytes.len() - len {
        let more = turn_len(&bytes[len..len + TURN]);
        len += more;
        if more < TURN {
            return len;
        }
    }
    len + ink_len(&bytes[len..])
}

/// How many bytes a word has that the bytes begin with, if white space stands behind it among them;
/// else 0.
#[inline(always)]
pub fn whole_word_len(bytes: &[u8]) -> usize
    ensures { 0 < result → IsWholeWord result bytes.now }
{
    let len = word_len(bytes);
    match bytes.get(len) {
        Some(next) if is_white(*next) => len,
        _ => 0,
    }
}

/// How many bytes of a turn come before one that is not above a space: all white space is so low.
#[inline(always)]
fn turn_len(bytes: &[u8]) -> usize
    requires { length bytes.now ≡ 16 }
    ensures within { result ≤ 16 }
    ensures ink { list_all is_ink (take result bytes.now) ≡ true }
{
    let low = u8x16::from_slice(bytes)
        .simd_le(u8x16::splat(b' '))
        .to_bitmask();
    if low == 0 {
        TURN
    } else {
        low.trailing_zeros() as usize
    }
}

/// How many bytes come before white space.
fn ink_len(bytes: &[u8]) -> usize
    ensures within { result ≤ length bytes.now }
    ensures ink { list_all is_ink (take result bytes.now) ≡ true }
{
    for (i, byte) in bytes.iter().enumerate() {
        if is_white(*byte) {
            return i;
        }
    }
    bytes.len()
}
