//! The lines of cycles.
ghost use Rattle.std.specs.Prelude.{◌≡◌, ◌≤◌, ◌+◌, ◌%◌, ◌^◌, length, OnOk, IfOk};
ghost use Rattle.std.specs.String.{string_bytes};
ghost use Rattle.run_log.specs.Growth.{Appends};
ghost use Rattle.run_log.specs.Log.{line_text, lines_text, retire_lines, write_lines, store_lines, cut_lines, dispatch_lines, drain_lines, stop_lines, cycle_text, text_from};

use crate::line::Line;
use crate::push::push_line;
use cycle_spec::{Cut, CycleLog, Dispatch};
use inorder_machine::{Retire, StopCause, Store, Write};
use std::alloc::{AllocError, Global};
use xif_base::NoMemory;

/// The lines of cycles that follow one another, the first of which has the number `first`.
pub fn log_text(alloc: Global, first: u64, logs: &[CycleLog]) -> Result<String, NoMemory>
    requires { first + length logs.now ≤ 2 ^ 63 }
    ensures { IfOk result (λ text. string_bytes text ≡ text_from first logs.now) }
{
    let mut text = String::new(alloc);
    for (index, log) in logs.iter().enumerate() {
        push_cycle(&mut text, first + index as u64, log)?;
    }
    Ok(text)
}

/// Appends the lines of the cycle of this number. Where memory runs out, some of them may be
/// missing.
pub fn push_cycle(text: &mut String, cycle: u64, log: &CycleLog) -> Result<(), NoMemory>
    ensures { OnOk result (Appends text.old text.new (cycle_text cycle log.now)) }
{
    push_retire(text, cycle, log.retired)?;
    push_cut(text, cycle, log.cut)?;
    push_dispatch(text, cycle, log.dispatched)?;
    push_drain(text, cycle, log.drained)?;
    push_stop(text, cycle, log.stopped, log.pc)?;
    Ok(())
}

fn push_retire(text: &mut String, cycle: u64, retired: Option<Retire>) -> Result<(), AllocError>
    ensures { OnOk result (Appends text.old text.new (lines_text cycle (retire_lines retired))) }
{
    let Some(retire) = retired else {
        return Ok(());
    };
    let line = Line::Retire {
        pc: retire.pc,
        word: retire.word,
    };
    push_line(text, cycle, line)?;
    push_write(text, cycle, retire.write)?;
    push_store(text, cycle, retire.store)
}

fn push_write(text: &mut String, cycle: u64, write: Write) -> Result<(), AllocError>
    ensures { OnOk result (Appends text.old text.new (lines_text cycle (write_lines write))) }
{
    match write {
        Write::None => Ok(()),
        Write::One { rd, value } => push_register(text, cycle, u16::from(rd), value),
        Write::Pair { rd, low, high } => {
            push_register(text, cycle, u16::from(rd), low)?;
            push_register(text, cycle, u16::from(rd) + 1, high)
        }
    }
}

fn push_register(text: &mut String, cycle: u64, register: u16, value: u32) -> Result<(), AllocError>
    ensures { OnOk result
        (Appends text.old text.new (line_text cycle (Line.Write register value))) }
{
    push_line(text, cycle, Line::Write { register, value })
}

fn push_store(text: &mut String, cycle: u64, store: Option<Store>) -> Result<(), AllocError>
    ensures { OnOk result (Appends text.old text.new (lines_text cycle (store_lines store))) }
{
    let Some(store) = store else {
        return Ok(());
    };
    let line = Line::Store {
        address: store.addr,
        width: store.width,
        value: lowest_bytes(store.value, store.width),
    };
    push_line(text, cycle, line)
}

// A value with all but its lowest bytes 0. A width is in bytes.
fn lowest_bytes(value: u32, width: u8) -> u32
    ensures { result ≡ value % 256 ^ width }
{
    match width {
        0 => 0,
        1 => value % 0x100,
        2 => value % 0x1_0000,
        3 => value % 0x100_0000,
        _ => value,
    }
}

fn push_cut(text: &mut String, cycle: u64, cut: Option<Cut>) -> Result<(), AllocError>
    ensures { OnOk result (Appends text.old text.new (lines_text cycle (cut_lines cut))) }
{
    let Some(Cut { keep, target }) = cut else {
        return Ok(());
    };
    push_line(text, cycle, Line::Cut { keep, target })
}

fn push_dispatch(
    text: &mut String,
    cycle: u64,
    dispatched: Option<Dispatch>,
) -> Result<(), AllocError>
    ensures { OnOk result
        (Appends text.old text.new (lines_text cycle (dispatch_lines dispatched))) }
{
    let Some(Dispatch { pc, word }) = dispatched else {
        return Ok(());
    };
    push_line(text, cycle, Line::Dispatch { pc, word })
}

fn push_drain(text: &mut String, cycle: u64, drained: Option<u8>) -> Result<(), AllocError>
    ensures { OnOk result (Appends text.old text.new (lines_text cycle (drain_lines drained))) }
{
    let Some(keep) = drained else {
        return Ok(());
    };
    push_line(text, cycle, Line::Drain { keep })
}

fn push_stop(
    text: &mut String,
    cycle: u64,
    stopped: Option<StopCause>,
    pc: u32,
) -> Result<(), AllocError>
    ensures { OnOk result (Appends text.old text.new (lines_text cycle (stop_lines stopped pc))) }
{
    let Some(cause) = stopped else {
        return Ok(());
    };
    push_line(text, cycle, Line::Stop { cause, pc })
}
