//! The changes of entries, by their numbers.
ghost use Rattle.std.specs.Prelude.{◌≡◌, ◌<◌, ℕ, Some, length, map, set, slice_get};
ghost use Rattle.circular_buffer.specs.Buffer.{buffer};
ghost use Rattle.cycle_spec.specs.Flight.{with_release, with_response};
ghost use Rattle.cycle_spec.specs.declared.entry.Entry.{Entry};
ghost use Rattle.flight_table.specs.Change.{changed, is_release};
ghost use Rattle.flight_table.specs.Index.{Rises};

use crate::entry::is_accepted;
use crate::search::place_of;
use circular_buffer::HeapCircularBuffer;
use cycle_spec::Entry;
use inorder_machine::{StopCause, Store, Write};
use xif_session::Response;

/// What happens to the entry of a number. A release is for the older ones too.
#[derive(Clone, Copy, Debug)]
pub enum Change {
    Response(Response),
    Sent,
    Release,
    Result(Write),
    Done {
        write: Write,
        store: Option<Store>,
        next: u32,
    },
    Stop(StopCause),
}

/// Changes the entry of a number, and by a release the older ones too.
pub(crate) fn change_all(ring: &mut HeapCircularBuffer<Entry>, seq: u64, change: Change)
    requires { (next : ℕ) × Rises 0 ring.old.items next }
    ensures { ring.new ≡ buffer (map (changed change seq) ring.old.items) ring.old.capacity }
{
    if is_release(change) {
        change_each(ring, seq, change);
        return;
    }
    let place = place_of(ring, seq);
    if place < ring.len() {
        change_at(ring, place, change);
    }
}

fn is_release(change: Change) -> bool
    ensures { result ≡ is_release change }
{
    match change {
        Change::Release => true,
        _ => false,
    }
}

fn change_at(ring: &mut HeapCircularBuffer<Entry>, place: usize, change: Change)
    requires { place < length ring.old.items }
    ensures { (e : Entry) → slice_get ring.old.items place ≡ Some e
        → ring.new ≡ buffer (set ring.old.items place (changed change e.seq e)) ring.old.capacity }
{
    match ring.get_mut(place) {
        Some(entry) => change_named(entry, change),
        None => unreachable!(),
    }
}

fn change_each(ring: &mut HeapCircularBuffer<Entry>, seq: u64, change: Change)
    ensures { ring.new ≡ buffer (map (changed change seq) ring.old.items) ring.old.capacity }
{
    for index in 0..ring.len() {
        match ring.get_mut(index) {
            Some(entry) => change_entry(entry, seq, change),
            None => unreachable!(),
        }
    }
}

/// In place, so that no entry is copied.
fn change_entry(entry: &mut Entry, seq: u64, change: Change)
    ensures { entry.new ≡ changed change seq entry.old }
{
    if let Change::Release = change {
        release(entry, seq);
    } else if entry.seq == seq {
        change_named(entry, change);
    }
}

fn release(entry: &mut Entry, seq: u64)
    ensures { entry.new ≡ with_release seq entry.old }
{
    if entry.seq <= seq && is_accepted(entry.response) {
        entry.released = true;
    }
}

/// The change of the entry that is named.
fn change_named(entry: &mut Entry, change: Change)
    ensures { entry.new ≡ changed change entry.old.seq entry.old }
{
    match change {
        Change::Response(response) => answer(entry, response),
        Change::Sent => entry.operands_sent = true,
        Change::Release => release(entry, entry.seq),
        Change::Result(write) => {
            entry.done = true;
            entry.write = write;
        }
        Change::Done { write, store, next } => {
            entry.done = true;
            entry.write = write;
            entry.store = store;
            entry.next = next;
        }
        Change::Stop(cause) => entry.stop = Some(cause),
    }
}

/// A refused word stops the machine.
fn answer(entry: &mut Entry, response: Response)
    ensures { entry.new ≡ with_response entry.old.seq response entry.old }
{
    entry.response = Some(response);
    if !response.accept {
        entry.stop = Some(StopCause::Illegal);
    }
}
