//! The table of the instructions in flight.
ghost use Rattle.std.specs.Prelude.{◌≡◌, ◌<◌, ◌≤◌, ◌+◌, ◌^◌, ◌++◌, ◌∷◌, [], ℕ, length, take, drop, find, map, option_copied, IfOk, slice_get, Some, None, true};
ghost use Rattle.std.specs.Option.{option_map};
ghost use Rattle.std.specs.List.{list_any};
ghost use Rattle.circular_buffer.specs.Buffer.{buffer};
ghost use Rattle.cycle_spec.specs.Flight as flight;
ghost use Rattle.flight_table.specs.Change.{changed, keeps_response};
ghost use Rattle.flight_table.specs.Table.{writer_of, line_with};
ghost use Rattle.flight_table.specs.Wanted.{passes};

use crate::change::{Change, change_all};
use crate::entry::{Wanted, new_entry};
use crate::registers::Registers;
use crate::search::{
    certain, entry_at, entry_of, first_among, first_behind, free_id, holder_of, is_any_stopping,
    operand_from, place_of, ready_among, youngest_released, youngest_writer,
};
use crate::writers::{Writers, forget, mend, mend_younger, note};
use circular_buffer::HeapCircularBuffer;
use cycle_spec::{Entry, EntryKind, Operand};
use inorder_machine::{StopCause, Store, Write};
use std::alloc::Global;
use std::marker::Model;
use xif_base::{NoMemory, Params};
use xif_session::Response;

/// The instructions in flight. `new` takes all memory that the table ever takes.
#[derive(Drop)]
pub struct FlightTable {
    dual_write: bool,
    next_seq: u64,
    /// The entries, the oldest first.
    ring: HeapCircularBuffer<Entry>,
    /// Of each register, the number of the youngest entry that may write it.
    writers: Writers,
}

impl Model for FlightTable {
    ghost use Rattle.flight_table.specs.Table.{Table};
    ghost use Rattle.flight_table.specs.Index.{IsKept};

    ghost Value = { Table };

    ghost view = { λ t. record {
      dual_write = t.dual_write;
      window = t.ring.capacity;
      next_seq = t.next_seq;
      entries = t.ring.items;
    } };

    ghost invariant = { λ t.
        let table : Table = record {
          dual_write = t.dual_write;
          window = t.ring.capacity;
          next_seq = t.next_seq;
          entries = t.ring.items;
        } in
        IsKept table t.writers };
}

impl FlightTable {
    /// No instruction is in flight, and at most `window` will be.
    pub fn new(alloc: Global, window: u8, params: &Params) -> Result<FlightTable, NoMemory>
        requires { window ≤ 32 }
        ensures { IfOk result (λ table. table ≡ record {
          dual_write = (params.now).dual_write;
          window = window;
          next_seq = 0;
          entries = [];
        }) }
    {
        Ok(FlightTable {
            dual_write: params.dual_write,
            next_seq: 0,
            ring: HeapCircularBuffer::with_capacity(alloc, usize::from(window))?,
            writers: [None; 32],
        })
    }

    /// The number of entries.
    pub fn len(&self) -> u8
        ensures len { result ≡ length self.now.entries }
        ensures within { (result ≤ self.now.window) × (self.now.window ≤ 32) }
    {
        self.ring.len() as u8
    }

    /// An entry, counted from the oldest, which is 0.
    pub fn get(&self, i: u8) -> Entry
        requires { i < length self.now.entries }
        ensures { slice_get self.now.entries i ≡ Some result }
    {
        *entry_at(&self.ring, usize::from(i))
    }

    /// An entry where it lies, counted from the oldest, which is 0.
    pub fn entry(&self, index: u8) -> &Entry
        requires { index < length self.now.entries }
        ensures value { slice_get self.now.entries index ≡ Some result.now }
        ensures rest { drop index self.now.entries
            ≡ result.now ∷ drop (index + 1) self.now.entries }
    {
        entry_at(&self.ring, usize::from(index))
    }

    /// The first of the `count` oldest entries that is as wanted.
    pub fn first_among(&self, count: u8, wanted: Wanted) -> Option<&Entry>
        ensures { option_copied result ≡ find (passes wanted) (take count self.now.entries) }
    {
        first_among(&self.ring, usize::from(count), wanted)
    }

    /// The first entry behind the `count` oldest ones that is as wanted.
    pub fn first_behind(&self, count: u8, wanted: Wanted) -> Option<&Entry>
        ensures { option_copied result ≡ find (passes wanted) (drop count self.now.entries) }
    {
        first_behind(&self.ring, usize::from(count), wanted)
    }

    /// How many entries there are up to the one of a number, with itself.
    pub fn count_through(&self, seq: u64) -> u8
        ensures { result ≡ flight.count_through seq self.now.entries }
    {
        (place_of(&self.ring, seq) + 1) as u8
    }

    /// Whether an entry stops the machine.
    pub fn is_any_stopping(&self) -> bool
        ensures { result ≡ list_any flight.is_stopping self.now.entries }
    {
        is_any_stopping(&self.ring)
    }

    /// The ring that the entries lie in: the oldest is its first, and the window its capacity.
    pub fn ring(&self) -> &HeapCircularBuffer<Entry>
        ensures items { result.now.items ≡ self.now.entries }
        ensures capacity { result.now.capacity ≡ self.now.window }
    {
        &self.ring
    }

    /// The rename index: for each register the number of the youngest entry that may write it, and
    /// none where there is no such entry. x0 has none.
    pub fn writers(&self) -> &[Option<u64>; 32]
        ensures writers { (r : ℕ) → r < 32 → slice_get result.now r
            ≡ Some (writer_of self.now.dual_write self.now.entries r) }
        ensures zero { slice_get result.now 0 ≡ Some None }
    {
        &self.writers
    }

    /// Adds the youngest entry, and returns its number. The word is 0 where there is none, and so
    /// is the id but for an unknown word.
    pub fn dispatch(&mut self, pc: u32, kind: EntryKind, word: u32, predicted: u32, id: u16) -> u64
        requires room { length self.old.entries < self.old.window }
        requires next { self.old.next_seq < 2 ^ 63 }
        ensures seq { result ≡ self.old.next_seq }
        ensures added { self.new ≡ record self.old {
          next_seq = self.old.next_seq + 1;
          entries = self.old.entries
              ++ flight.new_entry self.old.next_seq pc kind word predicted id ∷ [];
        } }
    {
        let seq = self.next_seq;
        self.add(new_entry(seq, pc, kind, word, predicted, id));
        seq
    }

    /// The number of the next entry.
    pub fn next_seq(&self) -> u64
        ensures { result ≡ self.now.next_seq }
    {
        self.next_seq
    }

    /// Adds an entry that was made ahead, as the youngest.
    pub fn add(&mut self, entry: Entry)
        requires room { length self.old.entries < self.old.window }
        requires next { self.old.next_seq < 2 ^ 63 }
        requires number { entry.seq ≡ self.old.next_seq }
        ensures { self.new ≡ record self.old {
          next_seq = self.old.next_seq + 1;
          entries = self.old.entries ++ entry ∷ [];
        } }
    {
        note(&mut self.writers, self.dual_write, &entry);
        push(&mut self.ring, entry);
        self.next_seq += 1;
    }

    /// The register x`register` as the entry of a number reads it: what the youngest older entry
    /// that may write it leaves there, and without one what the register file has.
    pub fn operand(&self, seq: u64, register: u8, file: &Registers) -> Operand
        ensures { result ≡ flight.operand_at
            self.now.dual_write file.now self.now.entries seq register }
    {
        operand_from(file, self.older_writer(seq, register), register)
    }

    /// The oldest entry that may execute.
    pub fn ready_oldest(&self, file: &Registers) -> Option<u64>
        ensures { result ≡ option_map (λ e. e.seq)
            (flight.ready_oldest self.now.dual_write file.now self.now.entries) }
    {
        seq_of(self.ready_among(self.len(), file))
    }

    /// The oldest of the `count` oldest entries that may execute.
    pub fn ready_among(&self, count: u8, file: &Registers) -> Option<&Entry>
        ensures { option_copied result ≡ flight.ready_oldest
            self.now.dual_write file.now (take count self.now.entries) }
    {
        ready_among(&self.ring, file, self.dual_write, usize::from(count))
    }

    /// The entry of a number executed: when it retires, it does this.
    pub fn set_done(&mut self, seq: u64, write: Write, store: Option<Store>, next: u32)
        ensures { self.new ≡ record self.old {
          entries = map (flight.with_line seq (line_with write store next)) self.old.entries;
        } }
    {
        self.change(seq, Change::Done { write, store, next });
    }

    /// The entry of a number stops the machine, once it is the oldest.
    pub fn set_stop(&mut self, seq: u64, cause: StopCause)
        ensures { self.new ≡ record self.old {
          entries = map (flight.with_stop seq cause) self.old.entries;
        } }
    {
        self.change(seq, Change::Stop(cause));
    }

    /// The unknown word of a number has its response. A refused one stops the machine.
    pub fn set_response(&mut self, seq: u64, response: Response)
        ensures { self.new ≡ record self.old {
          entries = map (flight.with_response seq response) self.old.entries;
        } }
    {
        let answered = entry_of(&self.ring, seq).copied();
        change_all(&mut self.ring, seq, Change::Response(response));
        let Some(entry) = answered else {
            return;
        };
        mend(&mut self.writers, &self.ring, self.dual_write, &entry);
    }

    /// The coprocessor took the source registers of the word of a number.
    pub fn set_sent(&mut self, seq: u64)
        ensures { self.new ≡ record self.old {
          entries = map (flight.with_sent seq) self.old.entries;
        } }
    {
        self.change(seq, Change::Sent);
    }

    /// The word of a number has its result, which is this write.
    pub fn set_result(&mut self, seq: u64, write: Write)
        ensures { self.new ≡ record self.old {
          entries = map (flight.with_result seq write) self.old.entries;
        } }
    {
        self.change(seq, Change::Result(write));
    }

    /// The accepted words up to a number are released.
    pub fn release_until(&mut self, seq: u64)
        ensures { self.new ≡ record self.old {
          entries = map (flight.with_release seq) self.old.entries;
        } }
    {
        self.change(seq, Change::Release);
    }

    /// The youngest use that may be released: all older entries are certain to retire.
    pub fn certain_until(&self) -> Option<u64>
        ensures { result ≡ option_map (λ e. e.seq) (flight.certain self.now.entries) }
    {
        seq_of(self.certain())
    }

    /// The youngest use that may be released, as it is.
    pub fn certain(&self) -> Option<&Entry>
        ensures { option_copied result ≡ flight.certain self.now.entries }
    {
        certain(&self.ring)
    }

    /// The youngest released use.
    pub fn youngest_released(&self) -> Option<&Entry>
        ensures { option_copied result ≡ flight.youngest_released self.now.entries }
    {
        youngest_released(&self.ring)
    }

    /// Removes the entries younger than the one of a number.
    pub fn cut_after(&mut self, seq: u64)
        ensures { self.new ≡ record self.old {
          entries = take (flight.count_through seq self.old.entries) self.old.entries;
        } }
    {
        let older = place_of(&self.ring, seq);
        self.ring.truncate_back(older + 1);
        mend_younger(&mut self.writers, &self.ring, self.dual_write, seq);
    }

    /// Removes all entries but so many of the oldest.
    pub fn keep(&mut self, count: u8)
        ensures { self.new ≡ record self.old { entries = take count self.old.entries } }
    {
        if count == 0 {
            self.cut_all();
        } else if usize::from(count) < self.ring.len() {
            let youngest = entry_at(&self.ring, usize::from(count - 1)).seq;
            self.cut_after(youngest);
        }
    }

    /// Removes all entries.
    pub fn cut_all(&mut self)
        ensures { self.new ≡ record self.old { entries = [] } }
    {
        self.ring.clear();
        self.writers = [None; 32];
    }

    /// Removes the oldest entry, and returns it.
    pub fn retire_front(&mut self) -> Entry
        requires { 0 < length self.old.entries }
        ensures { self.old ≡ record self.new { entries = result ∷ self.new.entries } }
    {
        match self.ring.pop_front() {
            Some(entry) => {
                forget(&mut self.writers, &entry);
                entry
            }
            None => unreachable!(),
        }
    }

    /// The least id that no unknown word in flight holds.
    pub fn free_id(&self) -> u16
        ensures { result ≡ flight.free_id self.now.entries }
    {
        free_id(&self.ring)
    }

    /// The unknown word that holds an id, the oldest if there are more.
    pub fn holder_of(&self, id: u16) -> Option<&Entry>
        ensures { option_copied result ≡ find (flight.holds_id id) self.now.entries }
    {
        holder_of(&self.ring, id)
    }

    /// The youngest entry that is older than the one of a number and may write a register. By the
    /// index, where the youngest of all is older.
    fn older_writer(&self, seq: u64, register: u8) -> Option<&Entry>
        ensures { option_copied result ≡ flight.youngest_writer self.now.dual_write
            (flight.older_than seq self.now.entries) register }
    {
        // The index has x0 to x31.
        if register >= 32 {
            return self.writer_before(seq, register);
        }
        match self.writers[usize::from(register)] {
            None => None,
            Some(youngest) if youngest < seq => entry_of(&self.ring, youngest),
            Some(_) => self.writer_before(seq, register),
        }
    }

    /// The same, looking back from the entry of the number.
    fn writer_before(&self, seq: u64, register: u8) -> Option<&Entry>
        ensures { option_copied result ≡ flight.youngest_writer self.now.dual_write
            (flight.older_than seq self.now.entries) register }
    {
        let older = place_of(&self.ring, seq);
        youngest_writer(&self.ring, self.dual_write, older, register)
    }

    /// A change that leaves the index as it is.
    fn change(&mut self, seq: u64, change: Change)
        requires { keeps_response change ≡ true }
        ensures { self.new ≡ record self.old {
          entries = map (changed change seq) self.old.entries;
        } }
    {
        change_all(&mut self.ring, seq, change);
    }
}

fn seq_of(entry: Option<&Entry>) -> Option<u64>
    ensures { result ≡ option_map (λ e. e.seq) (option_copied entry.entry) }
{
    match entry {
        Some(entry) => Some(entry.seq),
        None => None,
    }
}

/// Adds an entry where there is room.
fn push(ring: &mut HeapCircularBuffer<Entry>, entry: Entry)
    requires { length ring.old.items < ring.old.capacity }
    ensures { ring.new ≡ buffer (ring.old.items ++ entry ∷ []) ring.old.capacity }
{
    if ring.try_push_back(entry).is_err() {
        unreachable!();
    }
}
