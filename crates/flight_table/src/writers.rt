//! The rename index: of each register, the number of the youngest entry that may write it.
ghost use Rattle.std.specs.Prelude.{◌≡◌, ◌≢◌, ◌<◌, ◌≤◌, ◌+◌, ◌⊎◌, ℕ, Bool, false, Option, Some, None, nat_lt, slice_get, if◌then◌else◌};
ghost use Rattle.std.specs.Option.{option_map};
ghost use Rattle.cycle_spec.specs.Flight.{may_write};
ghost use Rattle.flight_table.specs.Table.{writer_of};
ghost use Rattle.flight_table.specs.Index.{first_target, forgotten};

use crate::entry::may_write;
use crate::search::youngest_writer;
use circular_buffer::HeapCircularBuffer;
use cycle_spec::{Entry, EntryKind};
use rv32_table::rd_field;

pub(crate) type Writers = [Option<u64>; 32];

/// A new youngest entry may write its registers.
pub(crate) fn note(writers: &mut Writers, dual_write: bool, entry: &Entry)
    ensures { (r : ℕ) → r < 32 → slice_get writers.new r
        ≡ (if may_write dual_write r entry.now
        then Some (Some (entry.now).seq)
        else slice_get writers.old r) }
{
    let first = first_target(entry);
    note_one(writers, dual_write, entry, first);
    note_one(writers, dual_write, entry, first.saturating_add(1));
}

fn note_one(writers: &mut Writers, dual_write: bool, entry: &Entry, register: u8)
    ensures named { register < 32 → slice_get writers.new register
        ≡ (if may_write dual_write register entry.now
        then Some (Some (entry.now).seq)
        else slice_get writers.old register) }
    ensures others { (r : ℕ) → r ≢ register
        → slice_get writers.new r ≡ slice_get writers.old r }
{
    if register < 32 && may_write(dual_write, register, entry) {
        writers[usize::from(register)] = Some(entry.seq);
    }
}

/// The oldest entry is gone: where it was the youngest there is none.
pub(crate) fn forget(writers: &mut Writers, entry: &Entry)
    ensures { (dual_write : Bool) → (r : ℕ) → r < 32
        → (slice_get writers.new r
        ≡ option_map (forgotten (entry.now).seq) (slice_get writers.old r))
        ⊎ ((slice_get writers.new r ≡ slice_get writers.old r)
        × (may_write dual_write r entry.now ≡ false)) }
{
    let first = first_target(entry);
    forget_one(writers, entry.seq, first);
    forget_one(writers, entry.seq, first.saturating_add(1));
}

fn forget_one(writers: &mut Writers, seq: u64, register: u8)
    ensures named { register < 32 → slice_get writers.new register
        ≡ option_map (forgotten seq) (slice_get writers.old register) }
    ensures others { (r : ℕ) → r ≢ register
        → slice_get writers.new r ≡ slice_get writers.old r }
{
    if register < 32 {
        let place = usize::from(register);
        writers[place] = forgotten(writers[place], seq);
    }
}

fn forgotten(writer: Option<u64>, seq: u64) -> Option<u64>
    ensures { result ≡ forgotten seq writer }
{
    match writer {
        Some(writer) if writer == seq => None,
        _ => writer,
    }
}

/// An entry may write other registers than before. The ring has it as it is now.
pub(crate) fn mend(
    writers: &mut Writers,
    ring: &HeapCircularBuffer<Entry>,
    dual_write: bool,
    entry: &Entry,
)
    ensures { (r : ℕ) → r < 32
        → (slice_get writers.new r ≡ Some (writer_of dual_write ring.now.items r))
        ⊎ ((slice_get writers.new r ≡ slice_get writers.old r)
        × ((r ≢ first_target entry.now) × (r ≢ first_target entry.now + 1))) }
{
    let first = first_target(entry);
    mend_one(writers, ring, dual_write, first);
    mend_one(writers, ring, dual_write, first.saturating_add(1));
}

fn mend_one(writers: &mut Writers, ring: &HeapCircularBuffer<Entry>, dual_write: bool, register: u8)
    ensures named { register < 32 → slice_get writers.new register
        ≡ Some (writer_of dual_write ring.now.items register) }
    ensures others { (r : ℕ) → r ≢ register
        → slice_get writers.new r ≡ slice_get writers.old r }
{
    if register < 32 {
        writers[usize::from(register)] = writer_of(ring, dual_write, register);
    }
}

/// The entries younger than the one of a number are gone. The ring is without them.
pub(crate) fn mend_younger(
    writers: &mut Writers,
    ring: &HeapCircularBuffer<Entry>,
    dual_write: bool,
    seq: u64,
)
    ensures { (r : ℕ) → r < 32
        → (slice_get writers.new r ≡ Some (writer_of dual_write ring.now.items r))
        ⊎ ((slice_get writers.new r ≡ slice_get writers.old r)
        × ((w : ℕ) → slice_get writers.old r ≡ Some (Some w) → w ≤ seq)) }
{
    for register in 0..32u8 {
        if is_younger(writers[usize::from(register)], seq) {
            mend_one(writers, ring, dual_write, register);
        }
    }
}

fn is_younger(writer: Option<u64>, seq: u64) -> bool
    ensures { (w : ℕ) → writer ≡ Some w → result ≡ nat_lt seq w }
{
    match writer {
        Some(writer) => seq < writer,
        None => false,
    }
}

fn writer_of(ring: &HeapCircularBuffer<Entry>, dual_write: bool, register: u8) -> Option<u64>
    ensures { result ≡ writer_of dual_write ring.now.items register }
{
    match youngest_writer(ring, dual_write, ring.len(), register) {
        Some(entry) => Some(entry.seq),
        None => None,
    }
}

/// The first register that an entry may write. If it may write another, that is the one behind it.
pub(crate) fn first_target(entry: &Entry) -> u8
    ensures { result ≡ first_target entry.now }
{
    match entry.kind {
        EntryKind::Local(instr) => instr.rd,
        EntryKind::Unknown => rd_field(entry.word),
        EntryKind::Nowhere => 0,
    }
}
