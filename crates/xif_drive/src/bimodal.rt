//! The predictor with a counter for each branch.
ghost use Rattle.std.specs.Prelude.{◌≡◌, ◌<◌, ◌≤◌, ◌^◌, length, replicate, IfOk};
ghost use Rattle.rv32_table.specs.Instr.{decoded};
ghost use Rattle.xif_drive.specs.Predictors as spec;

use crate::predictor::Predictor;
use crate::transfer::is_branch;
use rv32_table::{Instr, Row, decode};
use std::alloc::Global;
use std::marker::Model;
use xif_base::NoMemory;

/// Counters of 0 to 3, the one of a branch chosen by the low bits of its address in words.
///
/// JAL is predicted to be taken, and a branch where its counter is 2 or 3. A branch that was taken
/// raises its counter, and one that wasn't lowers it.
#[derive(Debug, Drop)]
pub struct Bimodal {
    counters: Vec<u8>,
}

impl Model for Bimodal {
    ghost use Rattle.std.specs.Prelude.{◌≤◌, ◌<◌, List, ℕ, length, All};

    ghost Value = { List ℕ };

    ghost view = { λ b. b.counters.items };

    ghost invariant = { λ b.
        (0 < length b.counters.items) × All (λ counter. counter ≤ 3) b.counters.items };
}

impl Bimodal {
    /// So many counters as 2 to the number of bits, all of them 1.
    pub fn new(alloc: Global, bits: u8) -> Result<Bimodal, NoMemory>
        requires some { 1 ≤ bits }
        requires few { bits ≤ 12 }
        ensures { IfOk result (λ b. b ≡ replicate (2 ^ bits) 1) }
    {
        Ok(Bimodal {
            counters: vec![in alloc; 1; 1 << bits]?,
        })
    }

    /// The place of the counter of an address.
    fn place(&self, pc: u32) -> usize
        ensures place { result ≡ spec.counter_place self.now pc }
        ensures inside { result < length self.now }
    {
        (pc / 4) as usize % self.counters.len()
    }
}

impl Predictor for Bimodal {
    ghost answer = { spec.bimodal_answer };

    ghost after = { spec.bimodal_after };

    fn next(&self, pc: u32, word: u32) -> u32 {
        let counter = self.counters[self.place(pc)];
        match decode(word) {
            Some(instr) if goes_by_counter(counter, &instr) => pc.wrapping_add(instr.imm),
            _ => pc.wrapping_add(4),
        }
    }

    fn learn(&mut self, pc: u32, word: u32, actual: u32) {
        if !is_branch_word(word) {
            return;
        }
        let place = self.place(pc);
        let went_on = actual == pc.wrapping_add(4);
        self.counters[place] = counter_after(self.counters[place], went_on);
    }
}

fn goes_by_counter(counter: u8, instr: &Instr) -> bool
    ensures { result ≡ spec.goes_by_counter counter instr.now }
{
    instr.row == Row::Jal || (is_branch(instr) && counter > 1)
}

fn is_branch_word(word: u32) -> bool
    ensures { result ≡ spec.is_branch_word (decoded word) }
{
    match decode(word) {
        Some(instr) => is_branch(&instr),
        None => false,
    }
}

fn counter_after(counter: u8, went_on: bool) -> u8
    requires { counter ≤ 3 }
    ensures after { result ≡ spec.counter_after counter went_on }
    ensures small { result ≤ 3 }
{
    if went_on {
        counter.saturating_sub(1)
    } else {
        (counter + 1).min(3)
    }
}
