//! The predictor that answers listed addresses in turn.
ghost use Rattle.std.specs.Prelude.{◌≡◌, ◌<◌, ◌≤◌, length, IfOk};
ghost use Rattle.xif_drive.specs.Predictors as spec;

use crate::predictor::Predictor;
use std::alloc::Global;
use std::marker::Model;
use xif_base::NoMemory;

/// Answers listed addresses in turn, whatever the instruction is: the next one once it has learnt.
#[derive(Debug, Drop)]
pub struct Listed {
    targets: Vec<u32>,
    position: usize,
}

impl Model for Listed {
    ghost use Rattle.std.specs.Prelude.{◌<◌, length};
    ghost use Rattle.xif_drive.specs.Predictors.{Turn};

    ghost Value = { Turn };

    ghost view = { λ l. record { targets = l.targets.items; position = l.position } };

    ghost invariant = { λ l. l.position < length l.targets.items };
}

impl Listed {
    /// Copies the addresses, of which the first one is answered first.
    pub fn new(alloc: Global, targets: &[u32]) -> Result<Listed, NoMemory>
        requires some { 0 < length targets.now }
        requires few { length targets.now ≤ 64 }
        ensures { IfOk result (λ l. l ≡ record { targets = targets.now; position = 0 }) }
    {
        Ok(Listed {
            targets: Vec::from_slice(alloc, targets)?,
            position: 0,
        })
    }
}

impl Predictor for Listed {
    ghost answer = { λ turn pc word. spec.listed_answer turn };

    ghost after = { λ turn pc word actual. spec.listed_after turn };

    fn next(&self, _pc: u32, _word: u32) -> u32 {
        self.targets[self.position]
    }

    fn learn(&mut self, _pc: u32, _word: u32, _actual: u32) {
        self.position = (self.position + 1) % self.targets.len();
    }
}
