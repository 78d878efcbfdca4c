//! The table of the instructions in flight: what a register is behind older entries, in a fresh
//! ring and in one that was filled and emptied past its capacity; and the way of a use from its
//! dispatch to its retirement.
ghost use Rattle.std.specs.Prelude.{◌≡◌, ◌<◌, ◌+◌, ◌^◌, [], length};

use flight_table::{EntryKind, FlightTable, Registers};
use inorder_machine::{StopCause, Write};
use rv32_table::decode;
use std::alloc::Global;
use std::test::Fail;
use xif_base::{Params, ReadFlags, WriteFlags};
use xif_session::Response;

/// One hart with 8 ids, and results that can be register pairs.
const PARAMS: Params = Params {
    num_rs: 2,
    id_width: 3,
    rfr_width: 32,
    rfw_width: 64,
    num_harts: 1,
    hartid_width: 1,
    dual_read: 0,
    dual_write: true,
    split: true,
    profile: 2,
};

/// addi x5, x0, 7
const SEVEN_TO_X5: u32 = 0x0070_0293;

/// addi x6, x5, 0
const X5_TO_X6: u32 = 0x0002_8313;

/// A word of a coprocessor, whose rd is 4.
const USE_TO_X4: u32 = 0x0000_020b;

fn kind_of(word: u32) -> EntryKind {
    match decode(word) {
        Some(instr) => EntryKind::Local(instr),
        None => EntryKind::Unknown,
    }
}

#[test]
fn a_register_is_what_the_youngest_writer_leaves(rt: HostRuntime) -> Result<(), Fail> {
    let text = text_of_writers(rt.alloc())?;
    assert_eq!(rt; text.as_str(), WRITERS);
    Ok(())
}

fn text_of_writers(alloc: Global) -> Result<String, Fail> {
    let mut text = String::new(alloc);
    let mut fresh = FlightTable::new(alloc, 4, &PARAMS)?;
    write_x5(&mut fresh, &mut text)?;
    let mut used = FlightTable::new(alloc, 4, &PARAMS)?;
    pass(&mut used);
    pass(&mut used);
    pass(&mut used);
    pass(&mut used);
    pass(&mut used);
    write_x5(&mut used, &mut text)?;
    Ok(text)
}

/// One instruction goes through the table.
fn pass(table: &mut FlightTable)
    requires empty { table.old.entries ≡ [] }
    requires window { table.old.window ≡ 4 }
    requires next { table.old.next_seq < 16 }
    ensures empty { table.new.entries ≡ [] }
    ensures window { table.new.window ≡ 4 }
    ensures next { table.new.next_seq ≡ table.old.next_seq + 1 }
{
    table.dispatch(0, kind_of(SEVEN_TO_X5), SEVEN_TO_X5, 4, 0);
    table.retire_front();
}

/// x5 behind one that wrote it and one that is to write it, and behind the first of them alone.
fn write_x5(table: &mut FlightTable, text: &mut String) -> Result<(), Fail>
    requires empty { table.old.entries ≡ [] }
    requires window { table.old.window ≡ 4 }
    requires next { table.old.next_seq < 32 }
{
    let file = Registers::new();
    let first = table.dispatch(0, kind_of(SEVEN_TO_X5), SEVEN_TO_X5, 4, 0);
    table.dispatch(4, kind_of(SEVEN_TO_X5), SEVEN_TO_X5, 8, 0);
    let reader = table.dispatch(8, kind_of(X5_TO_X6), X5_TO_X6, 12, 0);
    table.set_done(first, Write::One { rd: 5, value: 7 }, None, 4);
    writeln!(
        text,
        "{} {:?}",
        table.len(),
        table.operand(reader, 5, &file)
    )?;
    table.cut_after(first);
    let reader = table.dispatch(4, kind_of(X5_TO_X6), X5_TO_X6, 8, 0);
    let ready = table.ready_oldest(&file) == Some(reader);
    writeln!(
        text,
        "{} {:?} {ready}",
        table.len(),
        table.operand(reader, 5, &file)
    )?;
    let retired = table.retire_front();
    writeln!(
        text,
        "{:?} {:?}",
        retired.write,
        table.operand(reader, 5, &file)
    )?;
    Ok(())
}

const WRITERS: &str = "\
3 NotYet
2 Here(7) true
One { rd: 5, value: 7 } Here(0)
3 NotYet
2 Here(7) true
One { rd: 5, value: 7 } Here(0)
";

#[test]
fn a_use_may_write_a_pair_until_it_is_answered(rt: HostRuntime) -> Result<(), Fail> {
    let text = text_of_a_use(rt.alloc())?;
    assert_eq!(rt; text.as_str(), USE);
    Ok(())
}

fn text_of_a_use(alloc: Global) -> Result<String, Fail> {
    let mut text = String::new(alloc);
    let mut file = Registers::new();
    file.set(5, 9);
    let mut table = FlightTable::new(alloc, 4, &PARAMS)?;
    let offered = table.dispatch(0, EntryKind::Unknown, USE_TO_X4, 4, 0);
    let reader = table.dispatch(4, kind_of(X5_TO_X6), X5_TO_X6, 8, 0);
    writeln!(
        text,
        "{:?} {}",
        table.operand(reader, 5, &file),
        table.free_id()
    )?;
    table.set_response(offered, ACCEPTS);
    table.set_sent(offered);
    writeln!(
        text,
        "{:?} {:?}",
        table.operand(reader, 5, &file),
        table.certain_until()
    )?;
    let writers = table.writers();
    writeln!(text, "{:?} {:?} {:?}", writers[4], writers[5], writers[6])?;
    table.release_until(offered);
    table.set_result(offered, Write::One { rd: 4, value: 1 });
    table.set_stop(reader, StopCause::Illegal);
    writeln!(text, "{:?} {:?}", table.get(0).released, table.get(1).stop)?;
    table.cut_all();
    writeln!(
        text,
        "{} {} {}",
        table.len(),
        table.ring().capacity(),
        file.get(5)
    )?;
    Ok(text)
}

const ACCEPTS: Response = Response {
    accept: true,
    writeback: WriteFlags::RD,
    register_read: ReadFlags::BIT0,
};

const USE: &str = "\
NotYet 1
Here(9) Some(0)
Some(0) None Some(1)
true Some(Illegal)
0 4 9
";
