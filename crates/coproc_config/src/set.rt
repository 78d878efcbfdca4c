//! Units, which are lists of entries, and sets of units.
ghost use Rattle.std.specs.Prelude.{◌≡◌, ◌<◌, ◌++◌, [], ◌∷◌, Some, length, slice_get, IfOk, OnOk, OnErr};
ghost use Rattle.coproc_config.specs.Set.{new_unit, with_entry, with_last_entry};

use crate::operation::Entry;
use std::alloc::Global;
use std::marker::Model;
use xif_base::NoMemory;

/// A coprocessor unit: the list of its entries, and the number of its accumulators.
#[derive(Debug, Drop)]
pub struct Unit {
    pub accumulators: u8,
    entries: Vec<Entry>,
}

impl Model for Unit {
    ghost use Rattle.coproc_config.specs.Set.{UnitTable};

    ghost Value = { UnitTable };

    ghost view = { λ u. record { accumulators = u.accumulators; entries = u.entries.items } };
}

impl Unit {
    fn new(alloc: Global, accumulators: u8) -> Unit
        ensures { result ≡ new_unit accumulators }
    {
        Unit {
            accumulators,
            entries: Vec::new(alloc),
        }
    }

    fn push(&mut self, entry: Entry) -> Result<(), NoMemory>
        ensures ok { OnOk result (self.new ≡ with_entry self.old entry) }
        ensures err { OnErr result (self.new ≡ self.old) }
    {
        self.entries.push(entry)?;
        Ok(())
    }

    fn copy(&self, alloc: Global) -> Result<Unit, NoMemory>
        ensures { IfOk result (λ unit. unit ≡ self.now) }
    {
        Ok(Unit {
            accumulators: self.accumulators,
            entries: Vec::from_slice(alloc, &self.entries)?,
        })
    }

    /// The number of entries.
    pub fn len(&self) -> usize
        ensures { result ≡ length self.now.entries }
    {
        self.entries.len()
    }

    /// The entry with this number, from 0.
    pub fn get(&self, i: usize) -> &Entry
        requires { i < length self.now.entries }
        ensures { slice_get self.now.entries i ≡ Some result.now }
    {
        &self.entries[i]
    }
}

/// A set of units.
#[derive(Debug, Drop)]
pub struct Set {
    units: Vec<Unit>,
    alloc: Global,
}

impl Model for Set {
    ghost use Rattle.std.specs.Prelude.{List};
    ghost use Rattle.coproc_config.specs.Set.{UnitTable};

    ghost Value = { List UnitTable };

    ghost view = { λ s. s.units.items };
}

impl Set {
    /// A set without units.
    pub fn new(alloc: Global) -> Set
        ensures { result ≡ [] }
    {
        Set {
            units: Vec::new(alloc),
            alloc,
        }
    }

    /// Adds a unit without entries.
    pub fn unit(&mut self, accumulators: u8) -> Result<(), NoMemory>
        ensures ok { OnOk result (self.new ≡ self.old ++ new_unit accumulators ∷ []) }
        ensures err { OnErr result (self.new ≡ self.old) }
    {
        self.units.push(Unit::new(self.alloc, accumulators))?;
        Ok(())
    }

    /// Adds an entry to the last unit.
    pub fn entry(&mut self, entry: Entry) -> Result<(), NoMemory>
        requires { 0 < length self.old }
        ensures ok { OnOk result (self.new ≡ with_last_entry self.old entry) }
        ensures err { OnErr result (self.new ≡ self.old) }
    {
        let last = self.units.len() - 1;
        let unit = &mut self.units[last];
        unit.push(entry)
    }

    /// A set with the same units and entries.
    pub fn copy(&self, alloc: Global) -> Result<Set, NoMemory>
        ensures { IfOk result (λ set. set ≡ self.now) }
    {
        let mut copy = Set::new(alloc);
        for unit in &self.units {
            copy.units.push(unit.copy(alloc)?)?;
        }
        Ok(copy)
    }

    /// The number of units.
    pub fn len(&self) -> usize
        ensures { result ≡ length self.now }
    {
        self.units.len()
    }

    /// The unit with this number, from 0.
    pub fn get(&self, i: usize) -> &Unit
        requires { i < length self.now }
        ensures { slice_get self.now i ≡ Some result.now }
    {
        &self.units[i]
    }
}
