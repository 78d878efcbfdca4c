//! A file that is written piece by piece, through a buffer.
ghost use Rattle.std.specs.Prelude.{◌≡◌, ◌⊎◌, ◌<◌, ◌++◌, List, [], ℕ, length, Option, OnOk, OnErr, IfOk, IfErr};
ghost use Rattle.xif_base.specs.Files.{Files};
ghost use Rattle.xif_targets.specs.Writing.{IsWritten, IsWrittenInPart, IsGrowing, pending_limit, IsUncounted, IsCountedFail};

use crate::whole::append_all;
use std::alloc::Global;
use xif_base::{Shelf, WriteFail};

/// How many bytes may be pending before they are sent to the file.
const PENDING_LIMIT: usize = 65_536;

/// How many bytes a buffer has room for from the start.
const CAPACITY: usize = 66_560;

/// Makes a file empty, or creates it, and returns a buffer for its bytes.
pub fn start_file<S: Shelf>(alloc: Global, shelf: &mut S, name: &str) -> Result<Vec<u8>, WriteFail>
    ensures growing { IfOk result (λ buffer.
        IsGrowing (S.files shelf.old) (S.files shelf.new) name.now buffer.items []) }
    ensures uncounted { OnOk result (IsUncounted S.fetch_faults S.write_faults S.faultless
        shelf.old shelf.new) }
    ensures untouched { OnErr result (S.files shelf.new ≡ S.files shelf.old) }
    ensures counted { IfErr result (IsCountedFail S.fetch_faults S.write_faults S.faultless
        shelf.old shelf.new) }
{
    let Ok(buffer) = Vec::with_capacity(alloc, CAPACITY) else {
        return Err(WriteFail::NoMemory);
    };
    shelf.start(name)?;
    Ok(buffer)
}

/// Appends a piece to a file through its buffer. It is sent to the file once so much is pending
/// that this is worth a call of the shelf.
pub fn append_text<S: Shelf>(
    shelf: &mut S,
    name: &str,
    buffer: &mut Vec<u8>,
    piece: &[u8],
) -> Result<(), WriteFail>
    ensures growing { OnOk result ((before : Option Files) → (bytes : List ℕ) →
        IsGrowing before (S.files shelf.old) name.now buffer.old.items bytes
        → IsGrowing before (S.files shelf.new) name.now buffer.new.items (bytes ++ piece.now)) }
    ensures pending { OnOk result (length buffer.new.items < pending_limit) }
    ensures uncounted { OnOk result (IsUncounted S.fetch_faults S.write_faults S.faultless
        shelf.old shelf.new) }
    ensures front { OnErr result ((before : Option Files) → (bytes : List ℕ) →
        IsGrowing before (S.files shelf.old) name.now buffer.old.items bytes
        → IsWrittenInPart before (S.files shelf.new) name.now (bytes ++ piece.now)) }
    ensures counted { IfErr result (λ fail. (before : Option Files) → (bytes : List ℕ) →
        IsGrowing before (S.files shelf.old) name.now buffer.old.items bytes
        → IsCountedFail S.fetch_faults S.write_faults S.faultless shelf.old shelf.new fail) }
{
    if buffer.extend_from_slice(piece).is_err() {
        return Err(WriteFail::NoMemory);
    }
    send_full(shelf, name, buffer)
}

/// Sends what is pending to a file once it is so much that this is worth a call of the shelf.
pub fn send_full<S: Shelf>(shelf: &mut S, name: &str, buffer: &mut Vec<u8>) -> Result<(), WriteFail>
    ensures growing { OnOk result ((before : Option Files) → (bytes : List ℕ) →
        IsGrowing before (S.files shelf.old) name.now buffer.old.items bytes
        → IsGrowing before (S.files shelf.new) name.now buffer.new.items bytes) }
    ensures pending { OnOk result (length buffer.new.items < pending_limit) }
    ensures uncounted { OnOk result (IsUncounted S.fetch_faults S.write_faults S.faultless
        shelf.old shelf.new) }
    ensures front { OnErr result ((before : Option Files) → (bytes : List ℕ) →
        IsGrowing before (S.files shelf.old) name.now buffer.old.items bytes
        → IsWrittenInPart before (S.files shelf.new) name.now bytes) }
    ensures counted { IfErr result (λ fail. (before : Option Files) → (bytes : List ℕ) →
        IsGrowing before (S.files shelf.old) name.now buffer.old.items bytes
        → IsCountedFail S.fetch_faults S.write_faults S.faultless shelf.old shelf.new fail) }
{
    if buffer.len() < PENDING_LIMIT {
        return Ok(());
    }
    append_all(shelf, name, buffer)?;
    buffer.clear();
    Ok(())
}

/// Sends what is pending to a file.
pub fn end_file<S: Shelf>(shelf: &mut S, name: &str, buffer: &[u8]) -> Result<(), WriteFail>
    ensures whole { OnOk result ((before : Option Files) → (bytes : List ℕ) →
        IsGrowing before (S.files shelf.old) name.now buffer.now bytes
        → IsWritten before (S.files shelf.new) name.now bytes) }
    ensures uncounted { OnOk result (IsUncounted S.fetch_faults S.write_faults S.faultless
        shelf.old shelf.new) }
    ensures front { OnErr result ((before : Option Files) → (bytes : List ℕ) →
        IsGrowing before (S.files shelf.old) name.now buffer.now bytes
        → IsWrittenInPart before (S.files shelf.new) name.now bytes) }
    ensures counted { IfErr result (λ fail. (before : Option Files) → (bytes : List ℕ) →
        IsGrowing before (S.files shelf.old) name.now buffer.now bytes
        → IsCountedFail S.fetch_faults S.write_faults S.faultless shelf.old shelf.new fail) }
{
    append_all(shelf, name, buffer)
}
