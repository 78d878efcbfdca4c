//! What is found among the entries of a ring, the oldest first.
ghost use Rattle.std.specs.Prelude.{◌≡◌, ◌<◌, ◌≤◌, ◌+◌, ◌-◌, ◌^◌, ◌++◌, ◌∷◌, [], List, find, option_copied, length, take, drop, slice_get, Some};
ghost use Rattle.std.specs.List.{list_any};
ghost use Rattle.cycle_spec.specs.Flight as flight;
ghost use Rattle.flight_table.specs.Older.{IsOlder};
ghost use Rattle.flight_table.specs.Wanted.{passes};

use crate::entry::{Wanted, holds_id, is_safe, is_undecided, may_write, passes, value_in};
use crate::older::Older;
use crate::registers::Registers;
use circular_buffer::HeapCircularBuffer;
use cycle_spec::{Entry, EntryKind, Operand};
use rv32_table::{Instr, Kind};

/// An entry, counted from the oldest.
pub(crate) fn entry_at(ring: &HeapCircularBuffer<Entry>, index: usize) -> &Entry
    requires { index < length ring.now.items }
    ensures value { slice_get ring.now.items index ≡ Some result.now }
    ensures rest { drop index ring.now.items ≡ result.now ∷ drop (index + 1) ring.now.items }
    ensures older { take (index + 1) ring.now.items ≡ take index ring.now.items ++ result.now ∷ [] }
{
    match ring.get(index) {
        Some(entry) => entry,
        None => unreachable!(),
    }
}

/// An entry among the `count` oldest ones.
fn entry_within(ring: &HeapCircularBuffer<Entry>, count: usize, index: usize) -> &Entry
    requires index { index < length ring.now.items }
    requires count { index < count }
    ensures rest { take (count - index) (drop index ring.now.items)
        ≡ result.now ∷ take (count - (index + 1)) (drop (index + 1) ring.now.items) }
    ensures older { take (index + 1) ring.now.items ≡ take index ring.now.items ++ result.now ∷ [] }
{
    entry_at(ring, index)
}

/// How many entries are older than the one of a number.
pub(crate) fn place_of(ring: &HeapCircularBuffer<Entry>, seq: u64) -> usize
    ensures place { result ≡ length (flight.older_than seq ring.now.items) }
    ensures older { take result ring.now.items ≡ flight.older_than seq ring.now.items }
    ensures bound { result ≤ length ring.now.items }
{
    let count = ring.len();
    for index in 0..count {
        if entry_at(ring, index).seq == seq {
            return index;
        }
    }
    count
}

/// The entry of a number.
pub(crate) fn entry_of(ring: &HeapCircularBuffer<Entry>, seq: u64) -> Option<&Entry>
    ensures { option_copied result ≡ find (flight.has_seq seq) ring.now.items }
{
    for index in 0..ring.len() {
        let entry = entry_at(ring, index);
        if entry.seq == seq {
            return Some(entry);
        }
    }
    None
}

/// The youngest of the `count` oldest entries that may write a register.
pub(crate) fn youngest_writer(
    ring: &HeapCircularBuffer<Entry>,
    dual_write: bool,
    count: usize,
    register: u8,
) -> Option<&Entry>
    requires { count ≤ length ring.now.items }
    ensures { option_copied result
        ≡ flight.youngest_writer dual_write (take count ring.now.items) register }
{
    let mut behind = count;
    while behind > 0 {
        behind -= 1;
        let entry = entry_at(ring, behind);
        if may_write(dual_write, register, entry) {
            return Some(entry);
        }
    }
    None
}

/// A register behind the `count` oldest entries.
pub(crate) fn operand_behind(
    ring: &HeapCircularBuffer<Entry>,
    file: &Registers,
    dual_write: bool,
    count: usize,
    register: u8,
) -> Operand
    requires { count ≤ length ring.now.items }
    ensures { result
        ≡ flight.operand_behind dual_write file.now (take count ring.now.items) register }
{
    operand_from(
        file,
        youngest_writer(ring, dual_write, count, register),
        register,
    )
}

/// A register behind the entry that writes it, or of the register file.
pub(crate) fn operand_from(file: &Registers, writer: Option<&Entry>, register: u8) -> Operand
    ensures { result ≡ flight.operand_from file.now (option_copied writer.entry) register }
{
    match writer {
        None => Operand::Here(file.value(register)),
        Some(entry) if entry.done => Operand::Here(value_in(entry.write, register)),
        Some(_) => Operand::NotYet,
    }
}

/// The first of the `count` oldest entries that passes a test.
pub(crate) fn first_among(
    ring: &HeapCircularBuffer<Entry>,
    count: usize,
    wanted: Wanted,
) -> Option<&Entry>
    ensures { option_copied result ≡ find (passes wanted) (take count ring.now.items) }
{
    for index in 0..ring.len() {
        if index >= count {
            return None;
        }
        let entry = entry_within(ring, count, index);
        if passes(wanted, entry) {
            return Some(entry);
        }
    }
    None
}

/// The first entry behind the `count` oldest ones that passes a test.
pub(crate) fn first_behind(
    ring: &HeapCircularBuffer<Entry>,
    count: usize,
    wanted: Wanted,
) -> Option<&Entry>
    ensures { option_copied result ≡ find (passes wanted) (drop count ring.now.items) }
{
    for index in count..ring.len() {
        let entry = entry_at(ring, index);
        if passes(wanted, entry) {
            return Some(entry);
        }
    }
    None
}

/// Whether an entry stops the machine.
pub(crate) fn is_any_stopping(ring: &HeapCircularBuffer<Entry>) -> bool
    ensures { result ≡ list_any flight.is_stopping ring.now.items }
{
    for index in 0..ring.len() {
        if entry_at(ring, index).stop.is_some() {
            return true;
        }
    }
    false
}

/// The oldest of the `count` oldest entries that may execute.
pub(crate) fn ready_among<'a>(
    ring: &'a HeapCircularBuffer<Entry>,
    file: &Registers,
    dual_write: bool,
    count: usize,
) -> Option<&'a Entry>
    ensures { option_copied result
        ≡ flight.ready_oldest dual_write file.now (take count ring.now.items) }
{
    let mut older = Older::none();
    for index in 0..ring.len() {
        if index >= count {
            return None;
        }
        let entry = entry_within(ring, count, index);
        if may_execute(ring, file, dual_write, index, entry, &older) {
            return Some(entry);
        }
        older.note(dual_write, entry);
    }
    None
}

fn may_execute(
    ring: &HeapCircularBuffer<Entry>,
    file: &Registers,
    dual_write: bool,
    count: usize,
    entry: &Entry,
    older: &Older,
) -> bool
    requires count { count ≤ length ring.now.items }
    requires older { IsOlder dual_write file.now (take count ring.now.items) older.now }
    ensures { result
        ≡ flight.may_execute dual_write file.now (take count ring.now.items) entry.now }
{
    if entry.done || entry.stop.is_some() {
        return false;
    }
    match entry.kind {
        EntryKind::Local(instr) => {
            are_sources_here(ring, file, dual_write, count, older, &instr)
                && !is_held_back(instr.kind(), older.store, older.pending)
        }
        EntryKind::Unknown | EntryKind::Nowhere => false,
    }
}

fn is_held_back(kind: Kind, older_store: bool, older_pending: bool) -> bool
    ensures { (older : List Entry) → older_store ≡ list_any flight.is_store older
        → older_pending ≡ list_any flight.is_pending older
        → result ≡ flight.is_held_back kind older }
{
    match kind {
        Kind::Load => older_store,
        Kind::Control => older_pending,
        _ => false,
    }
}

fn are_sources_here(
    ring: &HeapCircularBuffer<Entry>,
    file: &Registers,
    dual_write: bool,
    count: usize,
    older: &Older,
    instr: &Instr,
) -> bool
    requires count { count ≤ length ring.now.items }
    requires older { IsOlder dual_write file.now (take count ring.now.items) older.now }
    ensures { result
        ≡ flight.are_sources_here dual_write file.now (take count ring.now.items) instr.now }
{
    let (first, second) = instr.sources();
    is_source_here(ring, file, dual_write, count, older, first)
        && is_source_here(ring, file, dual_write, count, older, second)
}

fn is_source_here(
    ring: &HeapCircularBuffer<Entry>,
    file: &Registers,
    dual_write: bool,
    count: usize,
    older: &Older,
    source: Option<u8>,
) -> bool
    requires count { count ≤ length ring.now.items }
    requires older { IsOlder dual_write file.now (take count ring.now.items) older.now }
    ensures { result ≡ flight.is_here
        (flight.source_behind dual_write file.now (take count ring.now.items) source) }
{
    match source {
        None => true,
        Some(register) if register < 32 => !older.waits[usize::from(register)],
        Some(register) => is_here(operand_behind(ring, file, dual_write, count, register)),
    }
}

fn is_here(operand: Operand) -> bool
    ensures { result ≡ flight.is_here operand }
{
    match operand {
        Operand::Here(_) => true,
        Operand::NotYet => false,
    }
}

/// The youngest use that may be released.
pub(crate) fn certain(ring: &HeapCircularBuffer<Entry>) -> Option<&Entry>
    ensures { option_copied result ≡ flight.certain ring.now.items }
{
    let mut youngest = None;
    for index in 0..ring.len() {
        let entry = entry_at(ring, index);
        if is_undecided(entry) {
            youngest = Some(entry);
        }
        if !is_safe(entry) {
            return youngest;
        }
    }
    youngest
}

/// The youngest released use.
pub(crate) fn youngest_released(ring: &HeapCircularBuffer<Entry>) -> Option<&Entry>
    ensures { option_copied result ≡ flight.youngest_released ring.now.items }
{
    let mut youngest = None;
    for index in 0..ring.len() {
        let entry = entry_at(ring, index);
        if entry.released {
            youngest = Some(entry);
        }
    }
    youngest
}

/// The least id that no unknown word holds: of more ids than there are entries one is free.
pub(crate) fn free_id(ring: &HeapCircularBuffer<Entry>) -> u16
    requires { length ring.now.items < 2 ^ 15 }
    ensures { result ≡ flight.free_id ring.now.items }
{
    let count = ring.len() as u16 + 1;
    for id in 0..count {
        if !is_held(ring, id) {
            return id;
        }
    }
    0
}

fn is_held(ring: &HeapCircularBuffer<Entry>, id: u16) -> bool
    ensures { result ≡ list_any (flight.holds_id id) ring.now.items }
{
    for index in 0..ring.len() {
        if holds_id(entry_at(ring, index), id) {
            return true;
        }
    }
    false
}

/// The oldest unknown word that holds an id.
pub(crate) fn holder_of(ring: &HeapCircularBuffer<Entry>, id: u16) -> Option<&Entry>
    ensures { option_copied result ≡ find (flight.holds_id id) ring.now.items }
{
    for index in 0..ring.len() {
        let entry = entry_at(ring, index);
        if holds_id(entry, id) {
            return Some(entry);
        }
    }
    None
}
