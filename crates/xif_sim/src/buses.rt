//! The buses of a run.
ghost use Rattle.std.specs.Prelude.{◌≡◌, ◌<◌, ◌++◌, [], ◌∷◌, Some, length, slice_get, OnOk, OnErr};

use std::alloc::Global;
use std::marker::Model;
use xif_base::NoMemory;
use xif_signals::Bus;

/// The buses of a run, in the order of its cycles.
#[derive(Debug, Drop)]
pub struct Buses {
    items: Vec<Bus>,
}

impl Model for Buses {
    ghost use Rattle.std.specs.Prelude.{List};
    ghost use Rattle.xif_signals.specs.declared.bus.Bus.{Bus};

    ghost Value = { List Bus };

    ghost view = { λ list. list.items.items };
}

impl Buses {
    /// The list of none.
    pub fn new(alloc: Global) -> Buses
        ensures { result ≡ [] }
    {
        Buses {
            items: Vec::new(alloc),
        }
    }

    /// Adds one at the end. Where memory runs out the list stays as it was.
    pub fn push(&mut self, bus: Bus) -> Result<(), NoMemory>
        ensures ok { OnOk result (self.new ≡ self.old ++ bus ∷ []) }
        ensures err { OnErr result (self.new ≡ self.old) }
    {
        self.items.push(bus)?;
        Ok(())
    }

    /// How many there are.
    pub fn len(&self) -> usize
        ensures { result ≡ length self.now }
    {
        self.items.len()
    }

    /// The one at an index, counted from 0.
    pub fn get(&self, i: usize) -> &Bus
        requires { i < length self.now }
        ensures { slice_get self.now i ≡ Some result.now }
    {
        &self.items[i]
    }

    /// All of them, in their order.
    pub fn as_slice(&self) -> &[Bus]
        ensures { result.now ≡ self.now }
    {
        self.items.as_slice()
    }
}
