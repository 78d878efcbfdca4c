//! What single tokens are.
ghost use Rattle.std.specs.Prelude.{◌≡◌, ◌≤◌, ◌<◌, ◌+◌, ◌++◌, ◌&&◌, nat_le, List, Some, [], ◌∷◌, length, true, false, IfOk, IfSome, IfNone};
ghost use Rattle.std.specs.List.{list_all};
ghost use Rattle.std.specs.Option.{option_map};
ghost use Rattle.std.specs.Str.{is_utf8};
ghost use Rattle.vcd_text.specs.declared.digit.Digit.{Digit};
ghost use Rattle.vcd_text.specs.Words.{is_white, zero_digit, number, digit, digits, keyword, is_end, is_command, is_code_character, is_code};

use crate::binary::binary_digits;
use crate::keyword::Keyword;
use crate::short_digits::{SHORT, ShortDigits};
use crate::{Digit, Digits};
use std::alloc::Global;
use xif_base::NoMemory;

/// Whether a byte is white space.
pub fn is_white(byte: u8) -> bool
    ensures { result ≡ is_white byte }
{
    byte == b' ' || (9 <= byte && byte <= 13)
}

/// How many decimal digits can't exceed 64 bits.
const SAFE_DIGITS: usize = 19;

/// The decimal number that the bytes are, below 2^64.
pub fn number(bytes: &[u8]) -> Option<u64>
    ensures { result ≡ number bytes.now }
{
    // Nearly all times have few digits.
    if bytes.len() <= SAFE_DIGITS {
        safe_number(bytes)
    } else {
        long_number(bytes)
    }
}

fn safe_number(bytes: &[u8]) -> Option<u64>
    requires { length bytes.now ≤ 19 }
    ensures { result ≡ number bytes.now }
{
    if bytes.is_empty() {
        return None;
    }
    let mut value = 0;
    for byte in bytes {
        if !byte.is_ascii_digit() {
            return None;
        }
        value = value * 10 + u64::from(*byte - b'0');
    }
    Some(value)
}

#[inline(never)]
fn long_number(bytes: &[u8]) -> Option<u64>
    ensures { result ≡ number bytes.now }
{
    if bytes.is_empty() {
        return None;
    }
    let mut value: u64 = 0;
    for byte in bytes {
        if !byte.is_ascii_digit() {
            return None;
        }
        value = value.checked_mul(10)?.checked_add(u64::from(*byte - b'0'))?;
    }
    Some(value)
}

/// The digit of a value that a byte is, alone.
pub fn one_digit(byte: u8) -> Option<ShortDigits>
    ensures { result ≡ option_map (λ d. d ∷ []) (digit byte) }
{
    if is_binary(byte) {
        return Some(ShortDigits::binary(1, u64::from(byte - b'0')));
    }
    digit(byte).map(ShortDigits::one)
}

/// The digit of a value that a byte is.
pub fn digit(byte: u8) -> Option<Digit>
    ensures { result ≡ digit byte }
{
    if is_binary(byte) {
        return Some(binary_digit(byte));
    }
    match byte {
        b'x' | b'X' => Some(Digit::X),
        b'z' | b'Z' => Some(Digit::Z),
        _ => None,
    }
}

/// Whether a byte is `0` or `1`, as nearly all digits are. The two follow no pattern that a
/// processor could foresee, so this takes one branch for both.
pub fn is_binary(byte: u8) -> bool
    ensures { result ≡ (nat_le zero_digit byte && nat_le byte (zero_digit + 1)) }
{
    b'0' <= byte && byte <= b'1'
}

fn binary_digit(byte: u8) -> Digit
    requires low { zero_digit ≤ byte }
    requires high { byte ≤ zero_digit + 1 }
    ensures { digit byte ≡ Some result }
{
    if byte == b'1' {
        Digit::One
    } else {
        Digit::Zero
    }
}

/// The digits that the bytes are, where each is one.
pub fn digits(alloc: Global, bytes: &[u8]) -> Result<Option<Digits>, NoMemory>
    ensures { IfOk result (λ found. found ≡ digits bytes.now) }
{
    if bytes.len() > SHORT {
        return long_digits(alloc, bytes);
    }
    // Nearly all values are binary.
    let found = match binary_digits(bytes) {
        Some(found) => Some(found),
        None => short_digits(bytes),
    };
    Ok(found.map(Digits::short))
}

#[inline(never)]
fn short_digits(bytes: &[u8]) -> Option<ShortDigits>
    requires { length bytes.now ≤ 64 }
    ensures { result ≡ digits bytes.now }
{
    let mut found = ShortDigits::new();
    for byte in bytes {
        found.push(digit(*byte)?);
    }
    Some(found)
}

#[inline(never)]
fn long_digits(alloc: Global, bytes: &[u8]) -> Result<Option<Digits>, NoMemory>
    requires { 64 < length bytes.now }
    ensures { IfOk result (λ found. found ≡ digits bytes.now) }
{
    let mut found = Vec::with_capacity(alloc, bytes.len())?;
    for byte in bytes {
        let Some(next) = digit(*byte) else {
            return Ok(None);
        };
        found.push(next)?;
    }
    Ok(Some(Digits::long(found)))
}

/// The keyword command that a token is.
pub fn keyword(bytes: &[u8]) -> Keyword
    ensures { result ≡ keyword bytes.now }
{
    if bytes == b"$scope".as_slice() {
        Keyword::Scope
    } else if bytes == b"$upscope".as_slice() {
        Keyword::Upscope
    } else if bytes == b"$var".as_slice() {
        Keyword::Var
    } else if bytes == b"$enddefinitions".as_slice() {
        Keyword::EndDefinitions
    } else if bytes == b"$end".as_slice() {
        Keyword::End
    } else if bytes == b"$dumpvars".as_slice()
        || bytes == b"$dumpall".as_slice()
        || bytes == b"$dumpon".as_slice()
        || bytes == b"$dumpoff".as_slice()
    {
        Keyword::Dump
    } else {
        Keyword::Other
    }
}

/// Whether a token ends a block.
pub fn is_end(bytes: &[u8]) -> bool
    ensures { result ≡ is_end bytes.now }
{
    bytes == b"$end".as_slice()
}

/// Whether a token is a command.
pub fn is_command(bytes: &[u8]) -> bool
    ensures { result ≡ is_command bytes.now }
{
    !bytes.is_empty() && bytes[0] == b'$'
}

fn is_code_character(byte: u8) -> bool
    ensures { result ≡ is_code_character byte }
{
    b'!' <= byte && byte <= b'~'
}

/// Whether a word may be an identifier code: 1 to 64 characters from `!` to `~`.
pub fn is_code(bytes: &[u8]) -> bool
    ensures { result ≡ is_code bytes.now }
{
    if bytes.is_empty() || bytes.len() > 64 {
        return false;
    }
    are_code_characters(bytes)
}

fn are_code_characters(bytes: &[u8]) -> bool
    ensures { result ≡ list_all is_code_character bytes.now }
{
    bytes.iter().all(|byte| is_code_character(*byte))
}

/// The text that the bytes are, where they are UTF-8.
pub fn text(bytes: &[u8]) -> Option<&str>
    ensures some { IfSome result (λ text. (text.now ≡ bytes.now) × (is_utf8 bytes.now ≡ true)) }
    ensures none { IfNone result (is_utf8 bytes.now ≡ false) }
{
    match str::from_utf8(bytes) {
        Ok(text) => Some(text),
        Err(_) => None,
    }
}
