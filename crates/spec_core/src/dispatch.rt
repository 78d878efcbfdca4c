//! The instruction that a cycle dispatches.
ghost use Rattle.std.specs.Prelude.{◌≡◌, ◌<◌, ◌^◌, IfSome, length, true, if◌then◌else◌, Some, None};
ghost use Rattle.std.specs.Option.{option_map};
ghost use Rattle.xif_image.specs.Region.{word_at};
ghost use Rattle.cycle_spec.specs.Core as spec;
ghost use Rattle.cycle_spec.specs.Flight as flight;

use crate::control::is_control;
use cycle_spec::{Cut, Dispatch, Entry, EntryKind};
use flight_table::{FlightTable, new_entry};
use rv32_table::decode;
use xif_drive::Predictor;
use xif_image::Memory;

/// The least free id, where an instruction is dispatched.
pub(crate) fn free_id_if(table: &FlightTable, dispatch: bool) -> u16
    ensures { dispatch ≡ true → result ≡ flight.free_id table.now.entries }
{
    if dispatch { table.free_id() } else { 0 }
}

/// The address of the next dispatch, by the last cut.
pub(crate) fn ahead_behind(cut: Option<Cut>, ahead: u32) -> u32
    ensures { result ≡ spec.ahead_behind cut ahead }
{
    match cut {
        Some(cut) => cut.target,
        None => ahead,
    }
}

/// The instruction at an address, where one is dispatched.
pub(crate) fn entry_if<P: Predictor>(
    dispatch: bool,
    seq: u64,
    id: u16,
    pc: u32,
    memory: &Memory,
    predictor: &P,
) -> Option<Entry>
    ensures { result ≡ (if dispatch
        then Some (spec.entry_at (P.answer predictor.now) seq id pc (word_at memory.now pc))
        else None) }
{
    if dispatch {
        Some(entry_at(seq, id, pc, memory.word(pc), predictor))
    } else {
        None
    }
}

/// The instruction at an address, by the word there.
fn entry_at<P: Predictor>(seq: u64, id: u16, pc: u32, word: Option<u32>, predictor: &P) -> Entry
    ensures { result ≡ spec.entry_at (P.answer predictor.now) seq id pc word }
{
    let kind = kind_at(word);
    let bits = word.unwrap_or(0);
    let predicted = predicted_at(predictor, pc, bits, kind);
    new_entry(seq, pc, kind, bits, predicted, id_by(kind, id))
}

fn kind_at(word: Option<u32>) -> EntryKind
    ensures { result ≡ flight.kind_at word }
{
    match word {
        None => EntryKind::Nowhere,
        Some(word) => match decode(word) {
            None => EntryKind::Unknown,
            Some(instr) => EntryKind::Local(instr),
        },
    }
}

/// The address that is predicted to follow: the predictor is asked at a control transfer alone.
fn predicted_at<P: Predictor>(predictor: &P, pc: u32, word: u32, kind: EntryKind) -> u32
    ensures { result ≡ spec.predicted_at (P.answer predictor.now) pc word kind }
{
    if is_control(kind) {
        predictor.next(pc, word)
    } else {
        pc.wrapping_add(4)
    }
}

/// Only an unknown word holds an id.
fn id_by(kind: EntryKind, id: u16) -> u16
    ensures { result ≡ (if flight.is_unknown_kind kind then id else 0) }
{
    match kind {
        EntryKind::Unknown => id,
        EntryKind::Local(_) | EntryKind::Nowhere => 0,
    }
}

/// The instruction that is dispatched is the youngest in flight.
pub(crate) fn add(table: &mut FlightTable, new: Option<Entry>)
    requires next { table.old.next_seq < 2 ^ 63 }
    requires room { IfSome new (λ e. length table.old.entries < table.old.window) }
    requires number { IfSome new (λ e. e.seq ≡ table.old.next_seq) }
    ensures { table.new ≡ record table.old {
      next_seq = spec.seq_after new table.old.next_seq;
      entries = spec.with_dispatch new table.old.entries;
    } }
{
    if let Some(entry) = new {
        table.add(entry);
    }
}

/// The address of the next dispatch after one.
pub(crate) fn ahead_after(new: &Option<Entry>, ahead: u32) -> u32
    ensures { result ≡ spec.ahead_after new.now ahead }
{
    match new {
        Some(entry) => entry.predicted,
        None => ahead,
    }
}

/// The line of the instruction that is dispatched.
pub(crate) fn dispatch_line(new: &Option<Entry>) -> Option<Dispatch>
    ensures { result ≡ option_map spec.dispatch_line new.now }
{
    let entry = new.as_ref()?;
    Some(Dispatch {
        pc: entry.pc,
        word: word_of(entry.kind, entry.word),
    })
}

fn word_of(kind: EntryKind, word: u32) -> Option<u32>
    ensures { result ≡ spec.word_of kind word }
{
    match kind {
        EntryKind::Local(_) | EntryKind::Unknown => Some(word),
        EntryKind::Nowhere => None,
    }
}
