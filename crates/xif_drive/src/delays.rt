//! A list of delays.
ghost use Rattle.std.specs.Prelude.{◌≡◌, ◌<◌, ◌++◌, [], ◌∷◌, length, OnOk, OnErr, IfOk, fold, max};
ghost use Rattle.xif_drive.specs.Scripts as spec;

use std::alloc::Global;
use std::marker::Model;
use xif_base::NoMemory;

/// A list of delays, in cycles.
#[derive(Debug, Drop)]
pub struct Delays {
    items: Vec<u16>,
}

impl Model for Delays {
    ghost use Rattle.std.specs.Prelude.{List, ℕ};

    ghost Value = { List ℕ };

    ghost view = { λ d. d.items.items };
}

impl Delays {
    /// The list of no delays.
    pub fn new(alloc: Global) -> Delays
        ensures { result ≡ [] }
    {
        Delays {
            items: Vec::new(alloc),
        }
    }

    /// A copy of a slice.
    pub fn from_slice(alloc: Global, delays: &[u16]) -> Result<Delays, NoMemory>
        ensures { IfOk result (λ d. d ≡ delays.now) }
    {
        Ok(Delays {
            items: Vec::from_slice(alloc, delays)?,
        })
    }

    /// Adds a delay at the end. Where memory runs out the list stays as it was.
    pub fn push(&mut self, delay: u16) -> Result<(), NoMemory>
        ensures ok { OnOk result (self.new ≡ self.old ++ delay ∷ []) }
        ensures err { OnErr result (self.new ≡ self.old) }
    {
        self.items.push(delay)?;
        Ok(())
    }

    /// The delays, in their order.
    pub fn as_slice(&self) -> &[u16]
        ensures { result.now ≡ self.now }
    {
        self.items.as_slice()
    }

    /// A copy, which does not change with this list.
    pub fn copy(&self, alloc: Global) -> Result<Delays, NoMemory>
        ensures { IfOk result (λ d. d ≡ self.now) }
    {
        Delays::from_slice(alloc, self.items.as_slice())
    }

    /// The delay of the transaction of a number: the list again and again.
    pub(crate) fn of(&self, k: u64) -> u16
        requires { 0 < length self.now }
        ensures { result ≡ spec.delay_of self.now k }
    {
        self.items[(k % self.items.len() as u64) as usize]
    }

    /// The greatest of the delays and another one.
    pub(crate) fn largest(&self, other: u16) -> u16
        ensures { result ≡ fold max other self.now }
    {
        self.items
            .as_slice()
            .iter()
            .fold(other, |largest, delay| largest.max(*delay))
    }
}
