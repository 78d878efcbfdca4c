//! What drops the younger entries in a cycle.
ghost use Rattle.std.specs.Prelude.{◌≡◌, ◌<◌, ◌^◌, option_copied, drop};
ghost use Rattle.std.specs.Option.{option_or};
ghost use Rattle.std.specs.List.{list_any};
ghost use Rattle.cycle_spec.specs.Choices as spec;

use crate::control::is_control;
use crate::state::CoreState;
use cycle_spec::{Cut, Entry, Executed};
use flight_table::FlightTable;
use inorder_machine::{Stepped, Store};

/// How many addresses there are.
const ADDRESSES: u64 = 1 << 32;

/// The entry that retires stores into the word of a younger one. What is younger is dropped, and is
/// dispatched anew.
pub fn store_cut(table: &FlightTable, retire: Option<&Entry>) -> Option<Cut>
    ensures { result ≡ spec.store_cut (option_copied retire.entry) (drop 1 table.now.entries) }
{
    match retire {
        None => None,
        Some(entry) => if is_any_hit(table, entry.store) {
            Some(Cut {
                keep: 1,
                target: entry.pc.wrapping_add(4),
            })
        } else {
            None
        },
    }
}

/// Whether a store is into the word of an entry but the oldest.
fn is_any_hit(table: &FlightTable, store: Option<Store>) -> bool
    ensures { result ≡ spec.is_any_hit store (drop 1 table.now.entries) }
{
    match store {
        None => false,
        Some(store) => is_hit_behind(table, &store),
    }
}

fn is_hit_behind(table: &FlightTable, store: &Store) -> bool
    ensures { result ≡ list_any (spec.is_hit store.now) (drop 1 table.now.entries) }
{
    for index in 1..table.len() {
        if is_hit(store, table.entry(index)) {
            return true;
        }
    }
    false
}

/// Whether a byte of a store is one of an entry's word.
fn is_hit(store: &Store, entry: &Entry) -> bool
    ensures { result ≡ spec.is_hit store.now entry.now }
{
    for k in 0..store.width {
        if is_in_word(entry.pc, u64::from(store.addr) + u64::from(k)) {
            return true;
        }
    }
    false
}

/// Whether an address is that of one of the four bytes of a word, where addresses wrap around.
fn is_in_word(pc: u32, address: u64) -> bool
    requires { address < 2 ^ 33 }
    ensures { result ≡ spec.is_in_word pc address }
{
    (address + ADDRESSES - u64::from(pc)) % ADDRESSES < 4
}

impl CoreState {
    /// The control transfer that executes goes elsewhere than was predicted. What is younger is
    /// dropped.
    pub(crate) fn control_cut(&self, execute: &Option<Executed>) -> Option<Cut>
        ensures { result ≡ spec.control_cut execute.now self.now.flight }
    {
        match execute {
            None => None,
            Some(executed) => transfer_cut(&self.table, &executed.entry, &executed.outcome),
        }
    }
}

fn transfer_cut(table: &FlightTable, entry: &Entry, outcome: &Stepped) -> Option<Cut>
    ensures { result ≡ spec.transfer_cut entry.now outcome.now table.now.entries }
{
    match outcome {
        Stepped::Retired(line) => if is_control(entry.kind) && line.next != entry.predicted {
            Some(Cut {
                keep: table.count_through(entry.seq),
                target: line.next,
            })
        } else {
            None
        },
        Stepped::Stop(_) => None,
    }
}

/// The first of two cuts.
pub fn either_cut(first: Option<Cut>, second: Option<Cut>) -> Option<Cut>
    ensures { result ≡ option_or first second }
{
    first.or(second)
}
