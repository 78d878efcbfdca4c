//! What a predictor is, and the one that predicts no transfer.
ghost use Rattle.std.specs.Prelude.{◌≡◌, ℕ};
ghost use Rattle.xif_drive.specs.Predictors as spec;

/// Predicts the address of the instruction after a control transfer. Addresses are those of bytes.
///
/// No call takes memory.
pub trait Predictor {
    /// What it answers for the word at an address.
    ghost answer: { Self → (pc word : ℕ) → ℕ };

    /// What it is after it was told where the word at an address went.
    ghost after: { Self → (pc word actual : ℕ) → Self };

    /// The address that the control transfer at `pc` is predicted to go to.
    fn next(&self, pc: u32, word: u32) -> u32
        ensures { result ≡ answer self.now pc word };

    /// The control transfer at `pc` retired, and went to `actual`.
    fn learn(&mut self, pc: u32, word: u32, actual: u32)
        ensures { self.new ≡ after self.old pc word actual };
}

/// Predicts that the instruction behind follows.
#[derive(Clone, Copy, Debug, PartialEq, Eq)]
pub struct Never;

impl Never {
    pub fn new() -> Never {
        Never
    }
}

impl Predictor for Never {
    ghost answer = { λ predictor pc word. spec.following pc };

    ghost after = { λ predictor pc word actual. predictor };

    fn next(&self, pc: u32, _word: u32) -> u32 {
        pc.wrapping_add(4)
    }

    fn learn(&mut self, _pc: u32, _word: u32, _actual: u32) {}
}
