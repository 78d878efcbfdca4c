//! Why a text has no reading, and why a reader goes no further.
use xif_base::NoMemory;

/// What is wrong with a text.
#[derive(Clone, Copy, Debug, PartialEq, Eq)]
pub enum VcdCause {
    /// A token that begins nothing which may stand there; a `$scope` without a name, with a name
    /// that is not UTF-8, or past 64 open scopes; or an `$upscope` where no scope is open.
    BadToken = 1,
    /// The text ends in a block, or before the second token of a change.
    OpenBlock,
    /// A `$var` without type, size, code and name, with a name that is not UTF-8, a size that is
    /// not decimal or is past 1,048,576 bits, or a code that is not 1 to 64 characters from `!` to
    /// `~`.
    BadVar,
    /// A `$var` of a code that was declared with another size.
    SizeDiffers,
    /// A change of a code that isn't declared.
    UnknownCode,
    /// A change of more digits than its code's size.
    TooWide,
    /// A time that is no decimal number below 2^64.
    BadTime,
    /// A time below the last one.
    TimeBack,
    /// The text ends outside a block, before `$enddefinitions` is complete.
    NoDefinitionsEnd,
}

/// The first fault of a text.
#[derive(Clone, Copy, Debug, PartialEq, Eq)]
pub struct VcdFault {
    /// Where it is, in bytes from the text's start.
    pub at: u64,
    /// What is wrong there.
    pub cause: VcdCause,
}

/// Why a reader goes no further.
#[derive(Clone, Copy, Debug, PartialEq, Eq)]
pub enum FeedFail {
    /// The text has a fault, its first.
    Vcd(VcdFault),
    /// Out of memory.
    NoMemory,
}

impl From<NoMemory> for FeedFail {
    ghost use Rattle.std.specs.Prelude.{◌≡◌};
    ghost use Rattle.vcd_text.specs.declared.fault.FeedFail.TheVariants.{NoMemory};

    ghost from_gives = { λ _ e. e ≡ NoMemory };

    fn from(_: NoMemory) -> Self {
        FeedFail::NoMemory
    }
}
