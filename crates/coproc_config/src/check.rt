//! The checks of a set, which a set has to pass before it is used.
ghost use Rattle.std.specs.Prelude.{◌≡◌, ◌≤◌, ◌↔◌, ◌+◌, ◌&&◌, nat_lt, nat_le, Ok, length, IsOk};
ghost use Rattle.std.specs.List.{flat_map};
ghost use Rattle.xif_base.specs.Checks.{first_failing};
ghost use Rattle.coproc_config.specs.Set.{places_of};
ghost use Rattle.coproc_config.specs.Check.{unit_checks, entry_checks, size_checks, all_entry_checks, checks, IsLawful};

use crate::operation::{Entry, Names};
use crate::set::{Set, Unit};

/// What is wrong with a set.
#[derive(Clone, Copy, Debug, PartialEq, Eq)]
pub enum SetCause {
    /// There are more than 8 units.
    TooManyUnits,
    /// A unit has more than 32 entries.
    TooManyEntries,
    /// A bit of `matched` is outside `mask`, so that no word can match.
    BadMask,
    /// A unit has more than 16 accumulators, or an entry names one that its unit hasn't.
    BadAccumulator,
    /// An entry names no bits (`len` is 0), or bits past bit 31.
    BadField,
}

/// What is wrong with a set, and where: the numbers of a unit and of its entry, from 0. The entry
/// is 0 for a fault of a unit, and both are 0 for a fault of the whole set.
#[derive(Clone, Copy, Debug, PartialEq, Eq)]
pub struct SetFault {
    pub cause: SetCause,
    pub unit: u16,
    pub entry: u16,
}

impl Set {
    /// Checks a set, and reports its first fault: that of the whole set comes first, then those of
    /// the units in order, then those of the entries in unit order and then entry order.
    pub fn check(&self) -> Result<(), SetFault>
        ensures lawful { IsOk result ↔ IsLawful self.now }
        ensures first { result ≡ first_failing (checks self.now) }
    {
        if self.len() > 8 {
            return Err(SetFault {
                cause: SetCause::TooManyUnits,
                unit: 0,
                entry: 0,
            });
        }
        self.check_sizes()?;
        self.check_entries()
    }

    fn check_sizes(&self) -> Result<(), SetFault>
        requires { length self.now ≤ 8 }
        ensures { result ≡ first_failing (size_checks self.now) }
    {
        for i in 0..self.len() {
            self.get(i).check_sizes(i as u16)?;
        }
        Ok(())
    }

    fn check_entries(&self) -> Result<(), SetFault>
        requires units { length self.now ≤ 8 }
        requires sizes { first_failing (size_checks self.now) ≡ Ok tt }
        ensures { result ≡ first_failing (all_entry_checks self.now) }
    {
        for i in 0..self.len() {
            self.get(i).check_entries(i as u16)?;
        }
        Ok(())
    }
}

impl Unit {
    fn check_sizes(&self, unit: u16) -> Result<(), SetFault>
        ensures { result ≡ first_failing (unit_checks (unit, self.now)) }
    {
        let cause = if self.len() > 32 {
            SetCause::TooManyEntries
        } else if self.accumulators > 16 {
            SetCause::BadAccumulator
        } else {
            return Ok(());
        };
        Err(SetFault {
            cause,
            unit,
            entry: 0,
        })
    }

    fn check_entries(&self, unit: u16) -> Result<(), SetFault>
        requires { length self.now.entries ≤ 32 }
        ensures { result ≡ first_failing (flat_map entry_checks (places_of (unit, self.now))) }
    {
        let accumulators = self.accumulators;
        for i in 0..self.len() {
            self.get(i).check(accumulators, unit, i as u16)?;
        }
        Ok(())
    }
}

impl Entry {
    /// The checks of an entry, which is the one with this number of the unit with that one.
    fn check(&self, accumulators: u8, unit: u16, entry: u16) -> Result<(), SetFault>
        ensures { result ≡ first_failing (entry_checks (record {
          unit = unit;
          entry = entry;
          accumulators = accumulators;
          row = self.now;
        })) }
    {
        let names = self.op.names();
        let cause = if self.matched & self.mask != self.matched {
            SetCause::BadMask
        } else if names == Names::Accumulator && self.acc >= accumulators {
            SetCause::BadAccumulator
        } else if names == Names::Field && !self.has_field() {
            SetCause::BadField
        } else {
            return Ok(());
        };
        Err(SetFault { cause, unit, entry })
    }

    /// The bits that `low` and `len` name lie in a word.
    fn has_field(&self) -> bool
        ensures { result ≡ (nat_lt 0 self.now.len && nat_le (self.now.low + self.now.len) 32) }
    {
        self.len > 0 && u32::from(self.low) + u32::from(self.len) <= 32
    }
}
