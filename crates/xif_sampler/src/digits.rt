//! The bits that a signal takes of the digits of a value (IEEE 1364-2005, 18.2.1).
ghost use Rattle.std.specs.Prelude.{◌≡◌, ◌≤◌, ◌-◌, ◌+◌, ◌*◌, ◌/◌, ◌%◌, ◌^◌, length};
ghost use Rattle.xif_sampler.specs.Digits.{filler, value_bit_of, unknown_bit_of, quad_from};

use vcd_text::{Digit, Digits};
use xif_base::ones_below;
use xif_signals::Quad;

/// `width` bits of a value, from its bit `low` on, which counts from the last digit as 0. A value
/// that is shorter is extended on the left (IEEE 1364-2005, 18.2.2).
#[inline(always)]
pub fn quad_of(digits: &Digits, low: u32, width: u8) -> Quad
    requires { width ≤ 64 }
    ensures { result ≡ quad_from digits.now low width }
{
    // Nearly all values are known. They are extended by 0.
    match digits.number() {
        Some(number) => Quad {
            value: bits_of(number, low, width),
            unknown: 0,
        },
        None => any_quad_of(digits, low, width),
    }
}

/// `width` bits of a number, from its bit `low` on.
fn bits_of(number: u64, low: u32, width: u8) -> u64
    requires { width ≤ 64 }
    ensures { result ≡ number / 2 ^ low % 2 ^ width }
{
    if low >= 64 {
        return 0;
    }
    (number >> low) & ones_below(width)
}

#[inline(never)]
fn any_quad_of(digits: &Digits, low: u32, width: u8) -> Quad
    requires { width ≤ 64 }
    ensures { result ≡ quad_from digits.now low width }
{
    let end = digits.len().saturating_sub(low as usize);
    let start = end.saturating_sub(usize::from(width));
    let mut quad = written(digits, start, end);
    // The digit that a value is extended by is never 1.
    quad.unknown += unknown_above(digits, (end - start) as u8, width);
    quad
}

/// The unknown bits that a value of `count` bits is extended by to `width` bits.
fn unknown_above(digits: &Digits, count: u8, width: u8) -> u64
    requires in_order { count ≤ width }
    requires few { width ≤ 64 }
    ensures { result ≡ unknown_bit_of (filler digits.now) * (2 ^ width - 2 ^ count) }
{
    match filler_of(digits) {
        Digit::X | Digit::Z => ones(count, width),
        Digit::Zero | Digit::One => 0,
    }
}

/// The bits of the digits from `start` to before `end`.
fn written(digits: &Digits, start: usize, end: usize) -> Quad
    requires in_order { start ≤ end }
    requires inside { end ≤ length digits.now }
    requires few { end ≤ start + 64 }
    ensures { result ≡ quad_from digits.now (length digits.now - end) (end - start) }
{
    let mut quad = Quad {
        value: 0,
        unknown: 0,
    };
    for index in start..end {
        let digit = digits.get(index);
        quad.value = quad.value * 2 + value_bit(digit);
        quad.unknown = quad.unknown * 2 + unknown_bit(digit);
    }
    quad
}

/// The digit that a value is extended by on the left.
fn filler_of(digits: &Digits) -> Digit
    ensures { result ≡ filler digits.now }
{
    if digits.len() == 0 {
        return Digit::X;
    }
    match digits.get(0) {
        Digit::One => Digit::Zero,
        digit => digit,
    }
}

fn value_bit(digit: Digit) -> u64
    ensures { result ≡ value_bit_of digit }
{
    match digit {
        Digit::One => 1,
        Digit::Zero | Digit::X | Digit::Z => 0,
    }
}

fn unknown_bit(digit: Digit) -> u64
    ensures { result ≡ unknown_bit_of digit }
{
    match digit {
        Digit::X | Digit::Z => 1,
        Digit::Zero | Digit::One => 0,
    }
}

/// The number whose bits from `low` to below `high` are 1.
fn ones(low: u8, high: u8) -> u64
    requires in_order { low ≤ high }
    requires few { high ≤ 64 }
    ensures { result ≡ 2 ^ high - 2 ^ low }
{
    ones_below(high) - ones_below(low)
}
