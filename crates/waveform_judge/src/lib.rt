//! Judges waveforms: the bytes of a text, piece by piece, become items, samples and a verdict, and
//! no more of the waveform is kept than a piece.
//!
//! The layers above may use `WaveformJudge`, which takes a text in pieces, also those of a file
//! while it is read (`xif_base::read_pieces`), and `judge_waveform` for a whole text. `Judged` has
//! the number of cycles of the waveform and its first fault, and `JudgeFail` says why it can't be
//! judged.
//!
//! The definitions are in `specs/`: `Judged` (the answer for a waveform), `Represented` (which text
//! a `WaveformJudge` represents), `Taking` (how it takes a piece) and `Newest` (the samples of a
//! history).
#![tactic(auto)]

mod item_judge;
mod judged;
mod signals;
mod waveform;

pub use judged::{JudgeFail, Judged};
pub use waveform::{WaveformJudge, judge_waveform};
