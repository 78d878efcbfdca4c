//! A few digits of a value, as two numbers.
ghost use Rattle.std.specs.Prelude.{◌≡◌, ◌≤◌, ◌<◌, ◌^◌, ◌++◌, ℕ, Some, [], ◌∷◌, length, slice_get, IfSome, IfNone};
ghost use Rattle.vcd_text.specs.Vectors.{digit_by, digits_by, aval_of, bval_of, IsBinary};

use crate::Digit;
use std::marker::Model;

/// The largest number of digits that `ShortDigits` has room for.
pub const SHORT: usize = 64;

/// Up to 64 digits, the leftmost first. They are encoded as the values of vectors are for programs
/// (IEEE 1364-2005, 27.14, `s_vpi_vecval`): a digit is a bit of `aval` and one of `bval`, of which
/// 00 is 0, 10 is 1, 11 is x and 01 is z.
#[derive(Debug, Drop)]
pub struct ShortDigits {
    count: usize,
    aval: u64,
    bval: u64,
}

impl Model for ShortDigits {
    ghost use Rattle.std.specs.Prelude.{List};
    ghost use Rattle.vcd_text.specs.declared.digit.Digit.{Digit};
    ghost use Rattle.vcd_text.specs.Vectors.{digits_by, AreShort};

    ghost Value = { List Digit };

    ghost view = { λ s. digits_by s.count s.aval s.bval };

    ghost invariant = { λ s. AreShort s.count s.aval s.bval };
}

impl ShortDigits {
    /// No digits.
    pub fn new() -> ShortDigits
        ensures { result ≡ [] }
    {
        ShortDigits {
            count: 0,
            aval: 0,
            bval: 0,
        }
    }

    /// One digit.
    pub fn one(digit: Digit) -> ShortDigits
        ensures { result ≡ digit ∷ [] }
    {
        ShortDigits {
            count: 1,
            aval: aval_of(digit),
            bval: bval_of(digit),
        }
    }

    /// A number in binary.
    pub fn binary(count: usize, number: u64) -> ShortDigits
        requires few { count ≤ 64 }
        requires below { number < 2 ^ count }
        ensures { result ≡ digits_by count number 0 }
    {
        ShortDigits {
            count,
            aval: number,
            bval: 0,
        }
    }

    /// These digits.
    pub fn from_slice(digits: &[Digit]) -> ShortDigits
        requires { length digits.now ≤ 64 }
        ensures { result ≡ digits.now }
    {
        let mut found = ShortDigits::new();
        for digit in digits {
            found.push(*digit);
        }
        found
    }

    /// Adds a digit at the right.
    pub fn push(&mut self, digit: Digit)
        requires { length self.old < 64 }
        ensures { self.new ≡ self.old ++ digit ∷ [] }
    {
        self.count += 1;
        self.aval = self.aval * 2 + aval_of(digit);
        self.bval = self.bval * 2 + bval_of(digit);
    }

    /// How many digits there are.
    pub fn len(&self) -> usize
        ensures { result ≡ length self.now }
    {
        self.count
    }

    /// The digit at a place, counted from 0 at the left.
    pub fn get(&self, i: usize) -> Digit
        requires { i < length self.now }
        ensures { slice_get self.now i ≡ Some result }
    {
        let place = self.count - 1 - i;
        digit_of((self.aval >> place) % 2, (self.bval >> place) % 2)
    }

    /// The number that the digits write in binary. `None` where there are none, or one is x or z.
    pub fn number(&self) -> Option<u64>
        ensures some { IfSome result (IsBinary self.now) }
        ensures none { IfNone result ((n : ℕ) → ¬ IsBinary self.now n) }
    {
        if self.bval == 0 && self.count != 0 {
            Some(self.aval)
        } else {
            None
        }
    }
}

fn digit_of(aval: u64, bval: u64) -> Digit
    ensures { result ≡ digit_by aval bval }
{
    if bval == 0 {
        if aval == 0 { Digit::Zero } else { Digit::One }
    } else {
        if aval == 0 { Digit::Z } else { Digit::X }
    }
}

fn aval_of(digit: Digit) -> u64
    ensures { result ≡ aval_of digit }
{
    match digit {
        Digit::One | Digit::X => 1,
        Digit::Zero | Digit::Z => 0,
    }
}

fn bval_of(digit: Digit) -> u64
    ensures { result ≡ bval_of digit }
{
    match digit {
        Digit::X | Digit::Z => 1,
        Digit::Zero | Digit::One => 0,
    }
}
