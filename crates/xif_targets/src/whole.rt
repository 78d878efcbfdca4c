//! All bytes of a text, written to a file.
ghost use Rattle.std.specs.Prelude.{◌≡◌, ◌≢◌, ◌⊎◌, ◌++◌, List, ℕ, Option, OnOk, OnErr, IfErr};
ghost use Rattle.xif_base.specs.Faults.{Rose, CountsFaults};
ghost use Rattle.xif_base.specs.Files.{Files, IsMissing};
ghost use Rattle.xif_targets.specs.Writing.{IsWritten, IsWrittenInPart, IsUncounted, IsCountedFail};

use xif_base::{Shelf, WriteFail};

/// Makes a file empty, or creates it, and writes all of the bytes to it. It ends at the first call
/// of the shelf that fails.
pub fn write_file<S: Shelf>(shelf: &mut S, name: &str, bytes: &[u8]) -> Result<(), WriteFail>
    ensures whole { OnOk result
        (IsWritten (S.files shelf.old) (S.files shelf.new) name.now bytes.now) }
    ensures uncounted { OnOk result (IsUncounted S.fetch_faults S.write_faults S.faultless
        shelf.old shelf.new) }
    ensures front { OnErr result ((S.files shelf.new ≡ S.files shelf.old)
        ⊎ IsWrittenInPart (S.files shelf.old) (S.files shelf.new) name.now bytes.now) }
    ensures counted { IfErr result (IsCountedFail S.fetch_faults S.write_faults S.faultless
        shelf.old shelf.new) }
{
    shelf.start(name)?;
    append_all(shelf, name, bytes)
}

/// Appends all of the bytes to a file, in as many calls as it takes. It ends at the first call of
/// the shelf that fails.
pub fn append_all<S: Shelf>(shelf: &mut S, name: &str, bytes: &[u8]) -> Result<(), WriteFail>
    // What was written to the file since some moment before goes on with all of the bytes, or with
    // a prefix of them.
    ensures whole { OnOk result ((before : Option Files) → (sent : List ℕ) →
        IsWritten before (S.files shelf.old) name.now sent
        → IsWritten before (S.files shelf.new) name.now (sent ++ bytes.now)) }
    ensures front { OnErr result ((before : Option Files) → (sent : List ℕ) →
        IsWritten before (S.files shelf.old) name.now sent
        → IsWrittenInPart before (S.files shelf.new) name.now (sent ++ bytes.now)) }

    // Nothing is counted unless a call fails, which it does when memory runs out or for a fault.
    ensures uncounted { OnOk result (IsUncounted S.fetch_faults S.write_faults S.faultless
        shelf.old shelf.new) }
    ensures counted { IfErr result (λ fail. (before : Option Files) → (sent : List ℕ) →
        IsWritten before (S.files shelf.old) name.now sent
        → IsCountedFail S.fetch_faults S.write_faults S.faultless shelf.old shelf.new fail) }
{
    let mut done = 0;
    while done < bytes.len() {
        done += shelf.append(name, &bytes[done..])?;
    }
    Ok(())
}
