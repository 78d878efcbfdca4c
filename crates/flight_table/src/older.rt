//! What entries hold back of a younger one.
ghost use Rattle.std.specs.Prelude.{◌≡◌, ◌≢◌, ◌<◌, ◌+◌, ◌++◌, ◌∷◌, [], ℕ, Bool, List, Some, min, not, slice_get, if◌then◌else◌};
ghost use Rattle.cycle_spec.specs.declared.entry.Entry.{Entry};
ghost use Rattle.cycle_spec.specs.Flight.{may_write};
ghost use Rattle.flight_table.specs.Index.{first_target};
ghost use Rattle.flight_table.specs.Older.{IsOlder};

use crate::entry::{is_pending, is_store, is_unknown, may_write};
use crate::writers::first_target;
use cycle_spec::Entry;

/// What some entries hold back of a younger one, so that no search among them is needed.
#[derive(Drop)]
pub(crate) struct Older {
    /// Of each register, whether the youngest of them that may write it isn't done.
    pub waits: [bool; 32],
    /// One of them is a store.
    pub store: bool,
    /// One of them is a use that had its issue handshake, and that no commit released.
    pub pending: bool,
}

impl Older {
    /// There are no entries.
    pub(crate) fn none() -> Older
        ensures { (dual_write : Bool) → (registers : List ℕ)
            → IsOlder dual_write registers [] result }
    {
        Older {
            waits: [false; 32],
            store: false,
            pending: false,
        }
    }

    /// There is a younger entry.
    pub(crate) fn note(&mut self, dual_write: bool, entry: &Entry)
        ensures { (registers : List ℕ) → (es : List Entry)
            → IsOlder dual_write registers es self.old
            → IsOlder dual_write registers (es ++ entry.now ∷ []) self.new }
    {
        note_wait(&mut self.waits, dual_write, entry);
        self.store |= is_store(entry);
        self.pending |= is_pending(entry);
    }
}

fn note_wait(waits: &mut [bool; 32], dual_write: bool, entry: &Entry)
    ensures { (r : ℕ) → r < 32 → slice_get waits.new r
        ≡ (if may_write dual_write r entry.now
        then Some (not (entry.now).done)
        else slice_get waits.old r) }
{
    let first = first_target(entry);
    note_one(waits, dual_write, entry, first);
    note_second(waits, dual_write, entry, first.saturating_add(1));
}

/// The register behind the first: only an unknown word may write it.
fn note_second(waits: &mut [bool; 32], dual_write: bool, entry: &Entry, register: u8)
    requires { register ≡ min (first_target entry.now + 1) 255 }
    ensures named { register < 32 → slice_get waits.new register
        ≡ (if may_write dual_write register entry.now
        then Some (not (entry.now).done)
        else slice_get waits.old register) }
    ensures others { (r : ℕ) → r ≢ register → slice_get waits.new r ≡ slice_get waits.old r }
{
    if is_unknown(entry) {
        note_one(waits, dual_write, entry, register);
    }
}

fn note_one(waits: &mut [bool; 32], dual_write: bool, entry: &Entry, register: u8)
    ensures named { register < 32 → slice_get waits.new register
        ≡ (if may_write dual_write register entry.now
        then Some (not (entry.now).done)
        else slice_get waits.old register) }
    ensures others { (r : ℕ) → r ≢ register → slice_get waits.new r ≡ slice_get waits.old r }
{
    if register < 32 && may_write(dual_write, register, entry) {
        waits[usize::from(register)] = !entry.done;
    }
}
