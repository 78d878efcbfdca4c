//! The predictor that takes transfers to lower addresses.
ghost use Rattle.std.specs.Prelude.{◌≡◌};
ghost use Rattle.xif_drive.specs.Predictors as spec;

use crate::predictor::Predictor;
use crate::transfer::is_branch;
use rv32_table::{Instr, Row, decode};

/// Predicts that JAL and branches to lower addresses are taken, and that the instruction behind
/// follows any other.
#[derive(Clone, Copy, Debug, PartialEq, Eq)]
pub struct Backward;

impl Backward {
    pub fn new() -> Backward {
        Backward
    }
}

impl Predictor for Backward {
    ghost answer = { λ predictor pc word. spec.backward_answer pc word };

    ghost after = { λ predictor pc word actual. predictor };

    fn next(&self, pc: u32, word: u32) -> u32 {
        match decode(word) {
            Some(instr) if goes_backward(&instr) => pc.wrapping_add(instr.imm),
            _ => pc.wrapping_add(4),
        }
    }

    fn learn(&mut self, _pc: u32, _word: u32, _actual: u32) {}
}

fn goes_backward(instr: &Instr) -> bool
    ensures { result ≡ spec.goes_backward instr.now }
{
    instr.row == Row::Jal || (is_branch(instr) && instr.imm.cast_signed() < 0)
}
