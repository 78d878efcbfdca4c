//! A list of addresses.
ghost use Rattle.std.specs.Prelude.{◌≡◌, ◌<◌, ◌++◌, [], ◌∷◌, Some, length, slice_get, OnOk, OnErr};

use std::alloc::Global;
use std::marker::Model;
use xif_base::NoMemory;

/// A list of addresses, in bytes. It is seen as the list of their numbers.
#[derive(Debug, Drop)]
pub struct Addresses {
    items: Vec<u32>,
}

impl Model for Addresses {
    ghost use Rattle.std.specs.Prelude.{List, ℕ};

    ghost Value = { List ℕ };

    ghost view = { λ a. a.items.items };
}

impl Addresses {
    /// The list of no addresses.
    pub fn new(alloc: Global) -> Addresses
        ensures { result ≡ [] }
    {
        Addresses {
            items: Vec::new(alloc),
        }
    }

    /// Adds an address at the end. Where memory runs out the list stays as it was.
    pub fn push(&mut self, address: u32) -> Result<(), NoMemory>
        ensures ok { OnOk result (self.new ≡ self.old ++ address ∷ []) }
        ensures err { OnErr result (self.new ≡ self.old) }
    {
        self.items.push(address)?;
        Ok(())
    }

    /// How many addresses there are.
    pub fn len(&self) -> usize
        ensures { result ≡ length self.now }
    {
        self.items.len()
    }

    /// The address at an index, counted from 0.
    pub fn get(&self, i: usize) -> &u32
        requires { i < length self.now }
        ensures { slice_get self.now i ≡ Some result.now }
    {
        &self.items[i]
    }

    /// The addresses, in their order.
    pub fn as_slice(&self) -> &[u32]
        ensures { result.now ≡ self.now }
    {
        self.items.as_slice()
    }

    pub(crate) fn of(items: Vec<u32>) -> Addresses
        ensures { result ≡ items.items }
    {
        Addresses { items }
    }
}
