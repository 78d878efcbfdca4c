//! The retirements of a run.
ghost use Rattle.std.specs.Prelude.{◌≡◌, ◌<◌, ◌++◌, [], ◌∷◌, Some, length, slice_get, OnOk, OnErr};

use inorder_machine::Retire;
use std::alloc::Global;
use std::marker::Model;
use xif_base::NoMemory;

/// The retirements of a run, in the order of its cycles.
#[derive(Debug, Drop)]
pub struct Retires {
    items: Vec<Retire>,
}

impl Model for Retires {
    ghost use Rattle.std.specs.Prelude.{List};
    ghost use Rattle.inorder_machine.specs.declared.line.Retire.{Retire};

    ghost Value = { List Retire };

    ghost view = { λ list. list.items.items };
}

impl Retires {
    /// The list of none.
    pub fn new(alloc: Global) -> Retires
        ensures { result ≡ [] }
    {
        Retires {
            items: Vec::new(alloc),
        }
    }

    /// Adds one at the end. Where memory runs out the list stays as it was.
    pub fn push(&mut self, retire: Retire) -> Result<(), NoMemory>
        ensures ok { OnOk result (self.new ≡ self.old ++ retire ∷ []) }
        ensures err { OnErr result (self.new ≡ self.old) }
    {
        self.items.push(retire)?;
        Ok(())
    }

    /// How many there are.
    pub fn len(&self) -> usize
        ensures { result ≡ length self.now }
    {
        self.items.len()
    }

    /// The one at an index, counted from 0.
    pub fn get(&self, i: usize) -> &Retire
        requires { i < length self.now }
        ensures { slice_get self.now i ≡ Some result.now }
    {
        &self.items[i]
    }

    /// All of them, in their order.
    pub fn as_slice(&self) -> &[Retire]
        ensures { result.now ≡ self.now }
    {
        self.items.as_slice()
    }
}
