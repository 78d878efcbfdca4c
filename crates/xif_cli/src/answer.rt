//! How a command ends that isn't refused, and what it prints.
ghost use Rattle.std.specs.Prelude.{◌≡◌};
ghost use Rattle.xif_cli.specs.Outcome.{end_status};

use crate::status::Status;
use std::marker::Model;

/// How a command ends that isn't refused.
#[derive(Clone, Copy, Debug, PartialEq, Eq)]
pub enum End {
    Done,
    /// A rule failed in the waveform that was judged.
    Illegal,
}

impl End {
    /// The status of a command that ends so.
    pub fn status(self) -> Status
        ensures { result ≡ end_status self }
    {
        match self {
            End::Done => Status::Done,
            End::Illegal => Status::Illegal,
        }
    }
}

/// How a command ends that writes no file, and the text that it prints.
#[derive(Drop)]
pub struct Answer {
    pub end: End,
    pub text: String,
}

impl Model for Answer {
    ghost use Rattle.std.specs.String.{string_bytes};
    ghost use Rattle.xif_cli.specs.Outcome as outcome;

    ghost Value = { outcome.Answer };

    ghost view = { λ a. outcome.prints a.end (string_bytes a.text) };
}
