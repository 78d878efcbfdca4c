//! Why a token is not taken in.
ghost use Rattle.std.specs.Prelude.{◌≡◌, Err};

use crate::{VcdCause, VcdFault};
use xif_base::NoMemory;

/// Why a token is not taken in.
#[derive(Drop)]
pub enum Stop {
    /// Out of memory.
    NoMemory,
    /// The token is the text's fault, or completes it.
    Fault(VcdFault),
}

impl From<NoMemory> for Stop {
    ghost use Rattle.std.specs.Prelude.{◌≡◌};
    ghost use Rattle.vcd_text.specs.declared.stop.Stop.TheVariants.{NoMemory};

    ghost from_gives = { λ _ e. e ≡ NoMemory };

    fn from(_: NoMemory) -> Self {
        Stop::NoMemory
    }
}

impl Stop {
    pub fn fault<T>(cause: VcdCause, at: u64) -> Result<T, Stop>
        ensures { result ≡ Err (Stop.Fault (record { at = at; cause = cause })) }
    {
        Err(Stop::Fault(VcdFault { at, cause }))
    }
}
