//! Texts that are read in pieces.
ghost use Rattle.std.specs.Prelude.{◌<◌, ◌≤◌, ◌^◌, length};

use std::alloc::Global;
use vcd_text::{FeedFail, Reader};

/// Reads a text in pieces of a length in bytes.
pub(crate) fn read(alloc: Global, text: &[u8], len: usize) -> Result<Reader, FeedFail>
    requires few { length text.now < 2 ^ 16 }
    requires some { 1 ≤ len }
{
    let mut reader = Reader::new(alloc);
    let mut rest = text;
    while !rest.is_empty() {
        let (piece, more) = rest.split_at(len.min(rest.len()));
        reader.feed(piece)?;
        rest = more;
    }
    reader.close()?;
    Ok(reader)
}
