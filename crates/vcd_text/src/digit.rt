//! The digits of a value, and a value as a list of them.
ghost use Rattle.std.specs.Prelude.{◌≡◌, ◌≤◌, ◌<◌, ◌^◌, ℕ, [], ◌∷◌, Some, length, slice_get, IfOk, IfSome, IfNone};
ghost use Rattle.vcd_text.specs.Vectors.{digits_by, IsBinary};

use crate::short_digits::{SHORT, ShortDigits};
use std::alloc::Global;
use std::marker::Model;
use xif_base::NoMemory;

/// One of the four values of a bit (IEEE 1364-2005, 18.2.1, `value`).
#[derive(Clone, Copy, Debug, Default, PartialEq, Eq)]
pub enum Digit {
    Zero,
    One,
    /// Unknown.
    #[default]
    X,
    /// High impedance.
    Z,
}

/// The digits of a value as they are written, the leftmost first.
#[derive(Debug, Drop)]
pub struct Digits {
    repr: Repr,
}

#[derive(Debug, Drop)]
enum Repr {
    // Most values have so few digits, and need no memory of their own.
    Short(ShortDigits),
    Long(Vec<Digit>),
}

impl Model for Digits {
    ghost use Rattle.std.specs.Prelude.{List};
    ghost use Rattle.vcd_text.specs.declared.digit.Digit.{Digit};
    ghost use Rattle.vcd_text.specs.Digits.{digits_in, IsShortest};

    ghost Value = { List Digit };

    ghost view = { λ d. digits_in d.repr };

    ghost invariant = { λ d. IsShortest d.repr };
}

impl Digits {
    /// No digits.
    pub fn new() -> Digits
        ensures { result ≡ [] }
    {
        Digits::short(ShortDigits::new())
    }

    /// One digit.
    pub fn one(digit: Digit) -> Digits
        ensures { result ≡ digit ∷ [] }
    {
        Digits::short(ShortDigits::one(digit))
    }

    /// These digits.
    pub fn from_slice(alloc: Global, digits: &[Digit]) -> Result<Digits, NoMemory>
        ensures { IfOk result (λ found. found ≡ digits.now) }
    {
        if digits.len() <= SHORT {
            return Ok(Digits::short(ShortDigits::from_slice(digits)));
        }
        Ok(Digits::long(Vec::from_slice(alloc, digits)?))
    }

    pub(crate) fn short(digits: ShortDigits) -> Digits
        ensures { result ≡ digits }
    {
        Digits {
            repr: Repr::Short(digits),
        }
    }

    pub(crate) fn long(digits: Vec<Digit>) -> Digits
        requires { 64 < length digits.items }
        ensures { result ≡ digits.items }
    {
        Digits {
            repr: Repr::Long(digits),
        }
    }

    /// How many digits there are.
    pub fn len(&self) -> usize
        ensures { result ≡ length self.now }
    {
        match &self.repr {
            Repr::Short(digits) => digits.len(),
            Repr::Long(digits) => digits.len(),
        }
    }

    /// The digit at a place, counted from 0 at the left.
    pub fn get(&self, i: usize) -> Digit
        requires { i < length self.now }
        ensures { slice_get self.now i ≡ Some result }
    {
        match &self.repr {
            Repr::Short(digits) => digits.get(i),
            Repr::Long(digits) => digits[i],
        }
    }

    /// The number that the digits write in binary. `None` where there are none or more than 64, or
    /// one is x or z.
    pub fn number(&self) -> Option<u64>
        ensures some { IfSome result (IsBinary self.now) }
        ensures none { IfNone result ((n : ℕ) → IsBinary self.now n → 64 < length self.now) }
    {
        match &self.repr {
            Repr::Short(digits) => digits.number(),
            Repr::Long(_) => None,
        }
    }
}
