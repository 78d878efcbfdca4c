//! The logs of a run.
ghost use Rattle.std.specs.Prelude.{◌≡◌, ◌<◌, ◌++◌, [], ◌∷◌, Some, length, slice_get, OnOk, OnErr};

use cycle_spec::CycleLog;
use std::alloc::Global;
use std::marker::Model;
use xif_base::NoMemory;

/// The logs of a run, in the order of its cycles.
#[derive(Debug, Drop)]
pub struct Logs {
    items: Vec<CycleLog>,
}

impl Model for Logs {
    ghost use Rattle.std.specs.Prelude.{List};
    ghost use Rattle.cycle_spec.specs.declared.log.CycleLog.{CycleLog};

    ghost Value = { List CycleLog };

    ghost view = { λ list. list.items.items };
}

impl Logs {
    /// The list of none.
    pub fn new(alloc: Global) -> Logs
        ensures { result ≡ [] }
    {
        Logs {
            items: Vec::new(alloc),
        }
    }

    /// Adds one at the end. Where memory runs out the list stays as it was.
    pub fn push(&mut self, log: CycleLog) -> Result<(), NoMemory>
        ensures ok { OnOk result (self.new ≡ self.old ++ log ∷ []) }
        ensures err { OnErr result (self.new ≡ self.old) }
    {
        self.items.push(log)?;
        Ok(())
    }

    /// How many there are.
    pub fn len(&self) -> usize
        ensures { result ≡ length self.now }
    {
        self.items.len()
    }

    /// The one at an index, counted from 0.
    pub fn get(&self, i: usize) -> &CycleLog
        requires { i < length self.now }
        ensures { slice_get self.now i ≡ Some result.now }
    {
        &self.items[i]
    }

    /// All of them, in their order.
    pub fn as_slice(&self) -> &[CycleLog]
        ensures { result.now ≡ self.now }
    {
        self.items.as_slice()
    }
}
