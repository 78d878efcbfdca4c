//! The parameters of the interface, its sets of register flags, names and keys; and the outside:
//! files by name, an output, and counts of how often they failed.
//!
//! The layers above may use `Params` and its `check`, after which the parameters are in the ranges
//! that every other call with parameters asks for, `ReadFlags` with the bit of each half of a lane,
//! `WriteFlags`, `Name`, `Key` and `ones_below`.
//!
//! They may use the traits `Shelf` and `Out`, whose contracts say what each of their calls returns
//! and when it fails; `read_pieces` for a file within a limit whose pieces an `Intake` takes, and
//! `read_all` for one that is kept whole; and `put_all` for all bytes of a text. `DiskShelf` and
//! `StdOut` are the real outside. They report nothing of the bytes that they hold, and are trusted
//! to the system.
//!
//! `MemShelf` and `MemOut` are an outside in memory, for tests: they move a few bytes at a time and
//! fail at the calls that their owner lists. Their contracts are exact, so that they show that the
//! contracts of `Shelf` and `Out` can be met, and by what.
//!
//! The definitions are in `specs/`: `Params` (the ranges), `Flags` (the bit of each half of a
//! lane), `Bits` (the lowest bits of a number), `Checks` (the first test that fails), `Faults`
//! (when a count rose, and what a call leaves of the counts), `Files` (what a shelf reports of a
//! file, and what a fetch copies) and `Output` (how an output grows). `Calls`, `MemoryShelf` and
//! `MemoryOutput` say what the outside in memory holds, and no other definition rests on them.
#![tactic(auto)]

mod bits;
mod count;
mod disk;
mod file_map;
mod flags;
mod mem_out;
mod mem_shelf;
mod name;
mod outside;
mod params;
mod pieces;
mod read;
mod write;

pub use bits::ones_below;
pub use disk::{DiskShelf, StdOut};
pub use flags::{ReadFlags, WriteFlags};
pub use mem_out::MemOut;
pub use mem_shelf::MemShelf;
pub use name::Name;
pub use outside::{Failed, NoMemory, Out, Shelf, Which, WriteFail};
pub use params::{Key, ParamFault, Params};
pub use pieces::{Intake, PIECE, read_pieces};
pub use read::{ReadFail, read_all};
pub use write::put_all;
