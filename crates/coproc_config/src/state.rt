//! The accumulators of all units.
ghost use Rattle.std.specs.Prelude.{◌≡◌, ◌<◌, ℕ, length, map, replicate, slice_set, slice_index, IfOk};
ghost use Rattle.coproc_config.specs.State.{zeros, accumulators_of, accumulator_of, HasAccumulator, with_accumulator, IsStateOf};

use crate::set::Set;
use std::alloc::Global;
use std::marker::Model;
use xif_base::NoMemory;

/// The accumulators of one unit.
#[derive(Debug, Drop)]
struct Accumulators {
    values: Vec<u64>,
}

impl Model for Accumulators {
    ghost use Rattle.std.specs.Prelude.{List, ℕ};

    ghost Value = { List ℕ };

    ghost view = { λ a. a.values.items };
}

impl Accumulators {
    fn new(alloc: Global, count: u8) -> Result<Accumulators, NoMemory>
        ensures { IfOk result (λ accumulators. accumulators ≡ replicate count 0) }
    {
        Ok(Accumulators {
            values: vec![in alloc; 0; usize::from(count)]?,
        })
    }

    fn copy(&self, alloc: Global) -> Result<Accumulators, NoMemory>
        ensures { IfOk result (λ accumulators. accumulators ≡ self.now) }
    {
        Ok(Accumulators {
            values: Vec::from_slice(alloc, &self.values)?,
        })
    }

    fn as_slice(&self) -> &[u64]
        ensures { result.now ≡ self.now }
    {
        &self.values
    }

    fn get(&self, acc: u8) -> u64
        requires { acc < length self.now }
        ensures { result ≡ slice_index self.now acc }
    {
        self.values[usize::from(acc)]
    }

    fn put(&mut self, acc: u8, value: u64)
        requires { acc < length self.old }
        ensures { self.new ≡ slice_set self.old acc value }
    {
        self.values[usize::from(acc)] = value;
    }
}

/// The accumulators of all units, 64 bits each.
#[derive(Debug, Drop)]
pub struct UnitState {
    units: Vec<Accumulators>,
}

/// A list of accumulators for each unit.
impl Model for UnitState {
    ghost use Rattle.std.specs.Prelude.{List, ℕ};

    ghost Value = { List (List ℕ) };

    ghost view = { λ s. s.units.items };
}

impl UnitState {
    /// All accumulators of a set, 0 each.
    pub fn new(alloc: Global, set: &Set) -> Result<UnitState, NoMemory>
        ensures zeros { IfOk result (λ state. state ≡ zeros set.now) }
        ensures fits { IfOk result (λ state. IsStateOf set.now state) }
    {
        let mut units = Vec::new(alloc);
        for i in 0..set.len() {
            units.push(Accumulators::new(alloc, set.get(i).accumulators)?)?;
        }
        Ok(UnitState { units })
    }

    /// The same accumulators with the same values.
    pub fn copy(&self, alloc: Global) -> Result<UnitState, NoMemory>
        ensures { IfOk result (λ state. state ≡ self.now) }
    {
        let mut units = Vec::new(alloc);
        for accumulators in &self.units {
            units.push(accumulators.copy(alloc)?)?;
        }
        Ok(UnitState { units })
    }

    /// The number of units.
    pub fn len(&self) -> usize
        ensures { result ≡ length self.now }
    {
        self.units.len()
    }

    /// The accumulators of a unit.
    pub fn unit(&self, unit: usize) -> &[u64]
        requires { unit < length self.now }
        ensures { result.now ≡ accumulators_of self.now unit }
    {
        self.units[unit].as_slice()
    }

    /// The value of one accumulator, by the number of its unit and its own number there, from 0.
    pub fn get(&self, unit: u8, acc: u8) -> u64
        requires { HasAccumulator self.now unit acc }
        ensures { result ≡ accumulator_of self.now unit acc }
    {
        self.units[usize::from(unit)].get(acc)
    }

    /// Puts a value into one accumulator.
    pub fn put(&mut self, unit: u8, acc: u8, value: u64)
        requires { HasAccumulator self.old unit acc }
        ensures value { self.new ≡ with_accumulator self.old unit acc value }
        ensures others { (u a : ℕ) → ¬ ((u ≡ unit) × (a ≡ acc)) →
            accumulator_of self.new u a ≡ accumulator_of self.old u a }
    {
        let accumulators = &mut self.units[usize::from(unit)];
        accumulators.put(acc, value);
    }
}
