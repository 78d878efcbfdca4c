//! A file piece by piece, within a limit.
ghost use Rattle.std.specs.Prelude.{◌≡◌, ◌≢◌, ◌⊎◌, ◌≤◌, ◌<◌, ◌+◌, ◌-◌, ◌^◌, ◌++◌, ℕ, List, [], length, vec_len, IfOk, OnOk};
ghost use Rattle.std.proofs.Common.{rules};
ghost use Rattle.std.proofs.lemmas.Grind.{common_steps};
ghost use Rattle.xif_base.specs.Faults.{Rose, OnlyReads};
ghost use Rattle.xif_base.specs.Files.{IsMissing, HasBytes, IsFileWithin};

use crate::read::ReadFail;
use crate::{Failed, NoMemory, Shelf};
use std::alloc::{AllocError, Global};

/// The largest number of bytes that are read of a file at a time.
pub const PIECE: usize = 65_536;

/// Takes the bytes of a file in order, piece by piece.
pub trait Intake {
    /// By taking these bytes the first value becomes the second.
    ghost takes: { Self → List ℕ → Self → Type 0 };

    /// Pieces that are together shorter than this can be taken.
    ghost room: { Self → ℕ };

    /// Takes the next piece.
    fn take(&mut self, piece: &[u8]) -> Result<(), NoMemory>
        requires { length piece.now < room self.old }
        ensures takes { OnOk result (takes self.old piece.now self.new) }
        ensures room { OnOk result (room self.old ≤ room self.new + length piece.now) };

    /// By taking nothing a value becomes itself.
    ghost takes_none: { (x : Self) → takes x [] x };

    /// To take two pieces one after the other is to take them as one.
    ghost takes_both: { (x y z : Self) (first second : List ℕ) →
        takes x first y → takes y second z → takes x (first ++ second) z };
}

impl Intake for Vec<u8> {
    ghost takes = { λ v bytes w. w.items ≡ v.items ++ bytes };

    ghost room = { λ _. 2 ^ 64 };

    ghost takes_none = { λ v. Prim.search (rules, common_steps) };

    ghost takes_both = { λ u v w first second p q. Prim.search (rules, common_steps) };

    fn take(&mut self, piece: &[u8]) -> Result<(), NoMemory> {
        Ok(self.extend_from_slice(piece)?)
    }
}

/// Reads a whole file of at most `limit` bytes in pieces of at most `PIECE` bytes, of which it
/// holds one at a time. At most one byte past the limit is fetched, and none is taken. After an
/// error it isn't known what was taken.
pub fn read_pieces<S: Shelf, T: Intake>(
    alloc: Global,
    shelf: &mut S,
    name: &str,
    limit: u64,
    intake: &mut T,
) -> Result<(), ReadFail>
    requires { limit < T.room intake.old }

    // What is taken is the file, and it is within the limit.
    ensures taken { OnOk result ((bytes : List ℕ) × (T.takes intake.old bytes intake.new
        × IsFileWithin (S.files shelf.old) name.now limit bytes)) }

    // A read fails only if the shelf had a fault, or reports that there is no such file.
    ensures missing { IsMissing (S.files shelf.old) name.now →
        (result ≡ Err ReadFail.ReadFault) ⊎ (result ≡ Err ReadFail.NoMemory) }
    ensures fault { result ≡ Err ReadFail.ReadFault →
        Rose (S.fetch_faults shelf.old) (S.fetch_faults shelf.new)
        ⊎ (IsMissing (S.files shelf.old) name.now
        × (S.fetch_faults shelf.new ≡ S.fetch_faults shelf.old)) }

    // A file is too big if and only if it is longer than the limit.
    ensures too_big { result ≡ Err ReadFail.TooBig → (bytes : List ℕ) →
        HasBytes (S.files shelf.old) name.now bytes → limit < length bytes }
    ensures longer { (bytes : List ℕ) →
        HasBytes (S.files shelf.old) name.now bytes → limit < length bytes →
        (result ≡ Err ReadFail.TooBig)
        ⊎ (Rose (S.fetch_faults shelf.old) (S.fetch_faults shelf.new)
        ⊎ (result ≡ Err ReadFail.NoMemory)) }

    // The shelf is only read, and a fault is counted only if the read fails.
    ensures uncounted { result ≢ Err ReadFail.ReadFault →
        S.fetch_faults shelf.new ≡ S.fetch_faults shelf.old }
    ensures only_reads { OnlyReads S.files S.fetch_faults S.write_faults S.faultless
        shelf.old shelf.new }

    // A shelf that says it has no faults fails only if there is no such file.
    ensures only_missing { S.faultless shelf.old → result ≡ Err ReadFail.ReadFault →
        IsMissing (S.files shelf.old) name.now }
{
    let mut room = new_room(alloc)?;
    let mut at = 0;
    'pieces: loop {
        let left = limit - at;
        // One byte past the limit shows that the file is longer.
        let most = left.min(PIECE as u64 - 1) as usize + 1;
        let piece = &mut room[..most];
        match shelf.fetch(name, at, piece) {
            Ok(0) => return Ok(()),
            Ok(count) => {
                if count as u64 > left {
                    return Err(ReadFail::TooBig);
                }
                intake.take(&piece[..count])?;
                at += count as u64;
            }
            Err(Failed) => return Err(ReadFail::ReadFault),
        }
    }
}

/// Room for the bytes of one fetch.
fn new_room(alloc: Global) -> Result<Vec<u8>, AllocError>
    ensures { IfOk result (λ room. vec_len room ≡ PIECE) }
{
    vec![in alloc; 0; PIECE]
}
