//! A whole file, within a limit.
ghost use Rattle.std.specs.Prelude.{◌≡◌, ◌≢◌, ◌⊎◌, ◌≤◌, ◌<◌, ℕ, List, length, vec_len, IfOk};
ghost use Rattle.xif_base.specs.Faults.{Rose, OnlyReads};
ghost use Rattle.xif_base.specs.Files.{IsMissing, HasBytes};

use crate::{NoMemory, Shelf, read_pieces};
use std::alloc::{AllocError, Global};

/// Why a file was not read.
#[derive(Clone, Copy, Debug, PartialEq, Eq)]
pub enum ReadFail {
    /// A fetch failed, or there is no such file.
    ReadFault,
    /// The file is longer than the limit.
    TooBig,
    /// Out of memory.
    NoMemory,
}

impl From<NoMemory> for ReadFail {
    ghost use Rattle.std.specs.Prelude.{◌≡◌};
    ghost use Rattle.xif_base.specs.declared.read.ReadFail.TheVariants.{NoMemory};

    ghost from_gives = { λ _ fail. fail ≡ NoMemory };

    fn from(_: NoMemory) -> Self {
        ReadFail::NoMemory
    }
}

impl From<AllocError> for ReadFail {
    ghost use Rattle.std.specs.Prelude.{◌≡◌};
    ghost use Rattle.xif_base.specs.declared.read.ReadFail.TheVariants.{NoMemory};

    ghost from_gives = { λ _ fail. fail ≡ NoMemory };

    fn from(_: AllocError) -> Self {
        ReadFail::NoMemory
    }
}

/// Reads a whole file of at most `limit` bytes. At most one byte past the limit is fetched.
pub fn read_all<S: Shelf>(
    alloc: Global,
    shelf: &mut S,
    name: &str,
    limit: u64,
) -> Result<Vec<u8>, ReadFail>
    // What is read is the file, and it is within the limit.
    ensures bytes { IfOk result (λ v. (bytes : List ℕ) →
        HasBytes (S.files shelf.old) name.now bytes → v.items ≡ bytes) }
    ensures within { IfOk result (λ v. vec_len v ≤ limit) }

    // A read fails only if the shelf had a fault, or reports that there is no such file.
    ensures missing { IsMissing (S.files shelf.old) name.now →
        (result ≡ Err ReadFail.ReadFault) ⊎ (result ≡ Err ReadFail.NoMemory) }
    ensures fault { result ≡ Err ReadFail.ReadFault →
        Rose (S.fetch_faults shelf.old) (S.fetch_faults shelf.new)
        ⊎ (IsMissing (S.files shelf.old) name.now
        × (S.fetch_faults shelf.new ≡ S.fetch_faults shelf.old)) }

    // A file is too big if and only if it is longer than the limit.
    ensures too_big { result ≡ Err ReadFail.TooBig → (bytes : List ℕ) →
        HasBytes (S.files shelf.old) name.now bytes → limit < length bytes }
    ensures longer { (bytes : List ℕ) →
        HasBytes (S.files shelf.old) name.now bytes → limit < length bytes →
        (result ≡ Err ReadFail.TooBig)
        ⊎ (Rose (S.fetch_faults shelf.old) (S.fetch_faults shelf.new)
        ⊎ (result ≡ Err ReadFail.NoMemory)) }

    // The shelf is only read, and a fault is counted only if the read fails.
    ensures uncounted { result ≢ Err ReadFail.ReadFault →
        S.fetch_faults shelf.new ≡ S.fetch_faults shelf.old }
    ensures only_reads { OnlyReads S.files S.fetch_faults S.write_faults S.faultless
        shelf.old shelf.new }

    // A shelf that says it has no faults fails only if there is no such file.
    ensures only_missing { S.faultless shelf.old → result ≡ Err ReadFail.ReadFault →
        IsMissing (S.files shelf.old) name.now }
{
    let mut bytes = Vec::new(alloc);
    read_pieces(alloc, shelf, name, limit, &mut bytes)?;
    Ok(bytes)
}
