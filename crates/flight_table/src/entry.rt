//! What an entry is, may write, and leaves in a register.
ghost use Rattle.std.specs.Prelude.{◌≡◌, ◌<◌, ◌==◌, false};
ghost use Rattle.std.specs.Option.{option_map_or};
ghost use Rattle.rv32_table.specs.Instr.{target_of};
ghost use Rattle.inorder_machine.specs.Execute as execute;
ghost use Rattle.xif_session.specs.Facts as session;
ghost use Rattle.cycle_spec.specs.Flight as flight;
ghost use Rattle.flight_table.specs.Wanted.{passes};

use cycle_spec::{Entry, EntryKind};
use inorder_machine::{StopCause, Write};
use rv32_table::{Instr, Kind, Row, rd_field};
use xif_session::Response;

/// What an entry is looked for by.
#[derive(Clone, Copy, Debug, PartialEq, Eq)]
pub enum Wanted {
    /// An unknown word that had no issue handshake.
    Open,
    /// An accepted use that reads registers, and had no register handshake.
    Waiting,
    /// A use that had its issue handshake, and that no commit released.
    Pending,
    /// The entry of a number.
    Number(u64),
}

pub(crate) fn passes(wanted: Wanted, entry: &Entry) -> bool
    ensures { result ≡ passes wanted entry.now }
{
    match wanted {
        Wanted::Open => is_unknown(entry) && entry.response.is_none(),
        Wanted::Waiting => reads_registers(entry.response) && !entry.operands_sent,
        Wanted::Pending => is_pending(entry),
        Wanted::Number(seq) => entry.seq == seq,
    }
}

pub(crate) fn is_unknown(entry: &Entry) -> bool
    ensures { result ≡ flight.is_unknown entry.now }
{
    match entry.kind {
        EntryKind::Unknown => true,
        EntryKind::Local(_) | EntryKind::Nowhere => false,
    }
}

fn reads_registers(response: Option<Response>) -> bool
    ensures { result ≡ flight.reads_registers response }
{
    match response {
        Some(response) => response.accept && response.register_read.bits() != 0,
        None => false,
    }
}

pub(crate) fn is_accepted(response: Option<Response>) -> bool
    ensures { result ≡ session.is_accepted response }
{
    match response {
        Some(response) => response.accept,
        None => false,
    }
}

pub(crate) fn is_store(entry: &Entry) -> bool
    ensures { result ≡ flight.is_store entry.now }
{
    match entry.kind {
        EntryKind::Local(instr) => is_store_kind(instr.kind()),
        EntryKind::Unknown | EntryKind::Nowhere => false,
    }
}

fn is_store_kind(kind: Kind) -> bool
    ensures { result ≡ flight.is_store_row kind }
{
    match kind {
        Kind::Store => true,
        _ => false,
    }
}

pub(crate) fn is_pending(entry: &Entry) -> bool
    ensures { result ≡ flight.is_pending entry.now }
{
    entry.response.is_some() && !entry.released
}

pub(crate) fn is_undecided(entry: &Entry) -> bool
    ensures { result ≡ flight.is_undecided entry.now }
{
    is_accepted(entry.response) && !entry.released
}

pub(crate) fn is_safe(entry: &Entry) -> bool
    ensures { result ≡ flight.is_safe entry.now }
{
    entry.stop.is_none() && is_safe_kind(entry)
}

fn is_safe_kind(entry: &Entry) -> bool
    ensures { result ≡ flight.is_safe_kind (entry.now).kind entry.now }
{
    match entry.kind {
        EntryKind::Local(instr) => is_safe_row(instr.kind(), entry.done),
        EntryKind::Unknown => is_accepted(entry.response),
        EntryKind::Nowhere => false,
    }
}

fn is_safe_row(kind: Kind, done: bool) -> bool
    ensures { result ≡ flight.is_safe_row kind done }
{
    match kind {
        Kind::Load | Kind::Control => done,
        Kind::Store => false,
        Kind::Alu | Kind::Fence | Kind::Stop => true,
    }
}

pub(crate) fn holds_id(entry: &Entry, id: u16) -> bool
    ensures { result ≡ flight.holds_id id entry.now }
{
    match entry.kind {
        EntryKind::Unknown => entry.id == id,
        EntryKind::Local(_) | EntryKind::Nowhere => false,
    }
}

/// Whether an entry may write a register. None writes x0.
pub(crate) fn may_write(dual_write: bool, register: u8, entry: &Entry) -> bool
    ensures { result ≡ flight.may_write dual_write register entry.now }
{
    register != 0 && may_write_kind(dual_write, register, entry)
}

fn may_write_kind(dual_write: bool, register: u8, entry: &Entry) -> bool
    ensures { result ≡ flight.may_write_kind dual_write (entry.now).kind entry.now register }
{
    match entry.kind {
        EntryKind::Local(instr) => is_target(&instr, register),
        EntryKind::Unknown => {
            may_write_word(dual_write, entry.response, rd_field(entry.word), register)
        }
        EntryKind::Nowhere => false,
    }
}

fn is_target(instr: &Instr, register: u8) -> bool
    ensures { result ≡ option_map_or (λ rd. rd == register) (target_of instr.now) false }
{
    match instr.target() {
        Some(rd) => rd == register,
        None => false,
    }
}

fn may_write_word(dual_write: bool, response: Option<Response>, rd: u8, register: u8) -> bool
    requires { rd < 32 }
    ensures { result ≡ flight.may_write_word dual_write response rd register }
{
    match response {
        None => register == rd || (dual_write && (rd % 2 == 0 && register == rd + 1)),
        Some(response) => {
            let flags = response.writeback.bits();
            rd != 0
                && ((flags & 1 == 1 && register == rd)
                    || (flags >> 1 & 1 == 1 && register == rd + 1))
        }
    }
}

/// What a write leaves in a register that it names.
pub(crate) fn value_in(write: Write, register: u8) -> u32
    ensures { result ≡ flight.value_in write register }
{
    match write {
        Write::None => 0,
        Write::One { rd: _, value } => value,
        Write::Pair { rd, low, high } => if register == rd { low } else { high },
    }
}

/// An entry as it is dispatched. The word is 0 where there is none, and so is the id but for an
/// unknown word.
pub fn new_entry(seq: u64, pc: u32, kind: EntryKind, word: u32, predicted: u32, id: u16) -> Entry
    ensures { result ≡ flight.new_entry seq pc kind word predicted id }
{
    Entry {
        seq,
        pc,
        word,
        kind,
        predicted,
        id,
        stop: stop_by(kind),
        done: false,
        write: Write::None,
        store: None,
        next: pc.wrapping_add(4),
        response: None,
        operands_sent: false,
        released: false,
    }
}

/// What stops the machine from the dispatch on.
fn stop_by(kind: EntryKind) -> Option<StopCause>
    ensures { result ≡ flight.stop_by kind }
{
    match kind {
        EntryKind::Local(instr) => match instr.kind() {
            Kind::Stop => Some(cause_of(instr.row)),
            _ => None,
        },
        EntryKind::Unknown => None,
        EntryKind::Nowhere => Some(StopCause::FetchOutside),
    }
}

fn cause_of(row: Row) -> StopCause
    ensures { result ≡ execute.cause_of row }
{
    match row {
        Row::Ebreak => StopCause::Ebreak,
        _ => StopCause::Ecall,
    }
}
