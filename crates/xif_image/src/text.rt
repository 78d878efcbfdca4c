//! Reading the text of an image: its tokens, and what each says.
ghost use Rattle.std.specs.Prelude.{◌≡◌, ◌≤◌, ◌<◌, ◌+◌, ◌-◌, ◌^◌, ◌⊎◌, ◌==◌, ◌∷◌, [], ℕ, position, length, take, drop, IfOk, IfErr, IfSome, All};
ghost use Rattle.std.specs.Option.{option_map_or};
ghost use Rattle.xif_image.specs.Image.{IsWithin};
ghost use Rattle.xif_image.specs.Text.{line_feed, is_white, comment_length, blank_length, ends_token, token_length, length_before, Token, tokens_from, tokens_of, address_in, item_of, placed_by};

use crate::image::{ByteAt, ImageFault, address_of};
use std::alloc::Global;

/// What a token says.
#[derive(Clone, Copy)]
pub(crate) enum Item {
    /// The address of the next byte.
    Address(u32),
    /// A byte, whose address is the one behind that of the byte before it.
    Byte(u8),
}

/// The bytes that a text places, in order.
pub(crate) fn read(
    alloc: Global,
    bytes: &[u8],
    base: u32,
    size: u32,
) -> Result<Vec<ByteAt>, ImageFault>
    requires { base + size ≤ 2 ^ 32 }
    ensures placed { IfOk result (λ placed.
        placed_by base size base (tokens_of bytes.now) ≡ Ok placed.items) }
    ensures within { IfOk result (λ placed. All (λ b. IsWithin base size b.address) placed.items) }
    ensures fault { IfErr result (λ fault. (fault ≡ ImageFault.NoMemory)
        ⊎ (placed_by base size base (tokens_of bytes.now) ≡ Err fault)) }
{
    let mut placed = Vec::new(alloc);
    // The next byte is `count` bytes behind `load`, the last address that was set.
    let mut load = base;
    let mut count = 0;
    let mut at = 0;
    while let Some((start, end)) = next_token(bytes, at) {
        match item_of(&bytes[start..end]) {
            Some(Item::Address(address)) => {
                load = address;
                count = 0;
            }
            Some(Item::Byte(value)) => {
                let Some(address) = address_of(load, count, base, size) else {
                    return Err(ImageFault::Outside { at: start as u64 });
                };
                placed.push(ByteAt { address, value })?;
                count += 1;
            }
            None => return Err(ImageFault::BadToken { at: start as u64 }),
        }
        at = end;
    }
    Ok(placed)
}

/// Where the first token from an offset on begins and ends.
fn next_token(bytes: &[u8], at: usize) -> Option<(usize, usize)>
    requires { at ≤ length bytes.now }
    ensures within { IfSome result (λ ends.
        (at ≤ ends.0) × (ends.0 < ends.1) × (ends.1 ≤ length bytes.now)) }
    ensures token { tokens_from at 0 (drop at bytes.now)
        ≡ option_map_or (λ ends.
        record { at = ends.0; bytes = take (ends.1 - ends.0) (drop ends.0 bytes.now) }
        ∷ tokens_from ends.1 0 (drop ends.1 bytes.now)) result [] }
{
    let mut start = at;
    while start < bytes.len() {
        let blank = blank_length(&bytes[start..]);
        if blank == 0 {
            return Some((start, start + token_length(&bytes[start..])));
        }
        start += blank;
    }
    None
}

/// The number of bytes of a white byte or a comment at the front.
fn blank_length(bytes: &[u8]) -> usize
    requires { 0 < length bytes.now }
    ensures within { result ≤ length bytes.now }
    ensures length { result ≡ blank_length bytes.now }
{
    if bytes.starts_with(b"//") {
        line_feed(bytes).unwrap_or(bytes.len())
    } else if bytes.starts_with(b"/*") {
        comment_length(bytes)
    } else {
        usize::from(is_white(bytes[0]))
    }
}

fn line_feed(bytes: &[u8]) -> Option<usize>
    ensures { result ≡ position (λ b. b == line_feed) bytes.now }
{
    bytes.iter().position(|b| *b == b'\n')
}

/// The number of bytes of the comment from `/*` on, through its `*/`: 0 where it is open.
fn comment_length(bytes: &[u8]) -> usize
    requires { 2 ≤ length bytes.now }
    ensures within { result ≤ length bytes.now }
    ensures length { result ≡ comment_length bytes.now }
{
    for at in 2..bytes.len() {
        if bytes[at..].starts_with(b"*/") {
            return at + 2;
        }
    }
    0
}

/// The number of bytes of the token at the front.
fn token_length(bytes: &[u8]) -> usize
    requires { 0 < length bytes.now }
    ensures within { (0 < result) × (result ≤ length bytes.now) }
    ensures length { result ≡ token_length bytes.now }
{
    for at in 1..bytes.len() {
        if ends_token(&bytes[at..]) {
            return at;
        }
    }
    bytes.len()
}

/// White space or a comment is at the front.
fn ends_token(bytes: &[u8]) -> bool
    requires { 0 < length bytes.now }
    ensures { result ≡ ends_token bytes.now }
{
    is_white(bytes[0]) || bytes.starts_with(b"//") || bytes.starts_with(b"/*")
}

/// Unlike `u8::is_ascii_whitespace`, with the vertical tab.
fn is_white(byte: u8) -> bool
    ensures { result ≡ is_white byte }
{
    matches!(byte, b'\t'..=b'\r' | b' ')
}

/// What a token says, if anything.
fn item_of(token: &[u8]) -> Option<Item>
    ensures { result ≡ item_of token.now }
{
    if let Some(digits) = token.strip_prefix(b"@") {
        return Some(Item::Address(address(digits)?));
    }
    let mut byte = [0];
    hex::decode_to_slice(token, &mut byte).ok()?;
    Some(Item::Byte(byte[0]))
}

/// The number that one to eight hex digits spell.
fn address(digits: &[u8]) -> Option<u32>
    ensures { result ≡ address_in digits.now }
{
    if digits.is_empty() || digits.len() > 8 {
        return None;
    }
    let mut number = 0;
    for digit in digits {
        number = number * 16 + char::from(*digit).to_digit(16)?;
    }
    Some(number)
}
