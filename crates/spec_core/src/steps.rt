//! The steps of a cycle on the instructions in flight, in their order.
ghost use Rattle.std.specs.Prelude.{◌≡◌, ◌≤◌, length, map};
ghost use Rattle.xif_session.specs.Facts as session;
ghost use Rattle.cycle_spec.specs.Core as spec;
ghost use Rattle.cycle_spec.specs.Flight as flight;

use bitflags::Flags;
use cycle_spec::{Choices, Cut, Entry, Executed, Presented};
use flight_table::FlightTable;
use inorder_machine::{Stepped, unit_write};
use rv32_table::rd_field;
use xif_base::{ReadFlags, WriteFlags};
use xif_session::Response;
use xif_signals::Bus;

/// All steps of a cycle but the dispatch.
pub(crate) fn settle(table: &mut FlightTable, choices: &Choices, bus: &Bus)
    ensures entries { table.new ≡ record table.old {
      entries = spec.settled_entries choices.now bus.now table.old.entries;
    } }
{
    response_step(table, &choices.offer, bus);
    sent_step(table, &choices.present, bus);
    release_step(table, &choices.release);
    cut_step(table, choices.cut);
    drain_step(table, choices.drain);
    result_step(table, bus);
    execute_step(table, &choices.execute);
    retire_step(table, &choices.retire);
}

/// At the issue handshake the word that is offered has its response.
fn response_step(table: &mut FlightTable, offer: &Option<Entry>, bus: &Bus)
    ensures { table.new ≡ record table.old {
      entries = spec.response_step offer.now bus.now table.old.entries;
    } }
{
    if !(bus.issue_valid && bus.issue_ready) {
        return;
    }
    if let Some(entry) = offer {
        table.set_response(entry.seq, response_on(bus));
    }
}

fn response_on(bus: &Bus) -> Response
    ensures { result ≡ session.response_on bus.now }
{
    Response {
        accept: bus.issue_accept,
        writeback: WriteFlags::from_bits_retain(bus.issue_writeback),
        register_read: ReadFlags::from_bits_retain(bus.issue_register_read),
    }
}

/// At the register handshake the source registers are sent.
fn sent_step(table: &mut FlightTable, present: &Option<Presented>, bus: &Bus)
    ensures { table.new ≡ record table.old {
      entries = spec.sent_step present.now bus.now table.old.entries;
    } }
{
    if !(bus.register_valid && bus.register_ready) {
        return;
    }
    if let Some(presented) = present {
        table.set_sent(presented.entry.seq);
    }
}

/// A release is for the use that it names and for all older ones.
fn release_step(table: &mut FlightTable, release: &Option<Entry>)
    ensures { table.new ≡ record table.old {
      entries = spec.release_step release.now table.old.entries;
    } }
{
    if let Some(entry) = release {
        table.release_until(entry.seq);
    }
}

fn cut_step(table: &mut FlightTable, cut: Option<Cut>)
    ensures { table.new ≡ record table.old {
      entries = spec.cut_step cut table.old.entries;
    } }
{
    if let Some(cut) = cut {
        table.keep(cut.keep);
    }
}

fn drain_step(table: &mut FlightTable, drain: Option<u8>)
    ensures { table.new ≡ record table.old {
      entries = spec.drain_step drain table.old.entries;
    } }
{
    if let Some(stay) = drain {
        table.keep(stay);
    }
}

/// The use whose result is taken is done.
fn result_step(table: &mut FlightTable, bus: &Bus)
    ensures { table.new ≡ record table.old {
      entries = spec.result_step bus.now table.old.entries;
    } }
{
    if !(bus.result_valid && bus.result_ready) {
        return;
    }
    if let Some(entry) = table.holder_of(bus.result_id) {
        let seq = entry.seq;
        let flags = WriteFlags::from_bits_retain(bus.result_we);
        let write = unit_write(rd_field(entry.word), flags, bus.result_data);
        table.set_result(seq, write);
    }
}

fn execute_step(table: &mut FlightTable, execute: &Option<Executed>)
    ensures { table.new ≡ record table.old {
      entries = spec.execute_step execute.now table.old.entries;
    } }
{
    if let Some(executed) = execute {
        take_outcome(table, executed.entry.seq, &executed.outcome);
    }
}

fn take_outcome(table: &mut FlightTable, seq: u64, outcome: &Stepped)
    ensures { table.new ≡ record table.old {
      entries = map (flight.with_outcome seq outcome.now) table.old.entries;
    } }
{
    match outcome {
        Stepped::Retired(line) => table.set_done(seq, line.write, line.store, line.next),
        Stepped::Stop(cause) => table.set_stop(seq, *cause),
    }
}

fn retire_step(table: &mut FlightTable, retire: &Option<Entry>)
    ensures { table.new ≡ record table.old {
      entries = spec.retire_step retire.now table.old.entries;
    } }
{
    if retire.is_some() && table.len() > 0 {
        table.retire_front();
    }
}
