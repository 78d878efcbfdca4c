//! The text of a list of buses, cycle by cycle.
ghost use Rattle.std.specs.Prelude.{◌≡◌, ◌≢◌, ◌<◌, ◌≤◌, ◌^◌, ◌+◌, ◌++◌, ◌∷◌, [], ℕ, List, IfOk, OnOk, OnErr, length, take, option_copied, nat_lt, if◌then◌else◌};
ghost use Rattle.std.specs.List.{flat_map, AllByRecursion};
ghost use Rattle.xif_base.specs.Params.{IsInRange};
ghost use Rattle.xif_signals.specs.declared.signal.Signal.TheVariants.{Clk};
ghost use Rattle.xif_signals.specs.declared.bus.Bus.{Bus};
ghost use Rattle.xif_signals.specs.Signal.{code_of, width_of};
ghost use Rattle.xif_signals.specs.Bus.{FitsWidths};
ghost use Rattle.vcd_text.specs.Written.{wires, value_in, is_same, var_line, change_line, changed_line, header_text, cycle_text, end_text, vcd_text_of};
ghost use Rattle.vcd_text.specs.Writing.{begun, Wrote, Fits};

use crate::lines::{put_change, put_edge, put_variable};
use crate::value::Values;
use std::alloc::Global;
use std::marker::Model;
use xif_base::{NoMemory, Params};
use xif_signals::{Bus, Signal};

/// How many bytes are reserved for the piece of a cycle, enough for all but the largest.
const CYCLE_CAPACITY: usize = 512;

/// Writes the text of a list of buses in pieces: the header, one piece a cycle, and the end. Cycle
/// c is at time 10c, and the clock rises at 10c + 5.
#[derive(Debug, Drop)]
pub struct Writer {
    params: Params,
    cycles: u64,
    last: Option<Values>,
}

impl Model for Writer {
    ghost use Rattle.std.specs.Prelude.{◌≤◌, ◌^◌};
    ghost use Rattle.xif_base.specs.Params.{IsInRange};
    ghost use Rattle.vcd_text.specs.Writing.{Progress};

    ghost Value = { Progress };

    ghost view = { λ w. record { params = w.params; cycles = w.cycles; last = w.last } };

    ghost invariant = { λ w. IsInRange w.params × (w.cycles ≤ 2 ^ 60) };
}

impl Writer {
    /// A writer before any cycle.
    pub fn new(params: &Params) -> Writer
        requires { IsInRange params.now }
        ensures { result ≡ begun params.now }
    {
        Writer {
            params: *params,
            cycles: 0,
            last: None,
        }
    }

    /// The first piece of a text: the declarations. The writer begins anew.
    pub fn header(&mut self, alloc: Global) -> Result<Vec<u8>, NoMemory>
        ensures begun { OnOk result (self.new ≡ begun self.old.params) }
        ensures wrote { IfOk result (λ piece. Wrote self.new [] piece.items) }
        ensures err { OnErr result (self.new ≡ self.old) }
    {
        let mut text = Vec::new(alloc);
        put_header(&mut text, &self.params)?;
        self.cycles = 0;
        self.last = None;
        Ok(text)
    }

    /// The piece of the next cycle.
    pub fn cycle(&mut self, alloc: Global, bus: &Bus) -> Result<Vec<u8>, NoMemory>
        requires room { self.old.cycles < 2 ^ 60 }
        requires fits { FitsWidths self.old.params bus.now }
        ensures params { self.new.params ≡ self.old.params }
        ensures count { OnOk result (self.new.cycles ≡ self.old.cycles + 1) }
        ensures wrote { IfOk result (λ piece. (buses : List Bus) (text : List ℕ) →
            Wrote self.old buses text
            → Wrote self.new (buses ++ bus.now ∷ []) (text ++ piece.items)) }
        ensures err { OnErr result (self.new ≡ self.old) }
    {
        let mut text = Vec::with_capacity(alloc, CYCLE_CAPACITY)?;
        self.cycle_onto(&mut text, bus)?;
        Ok(text)
    }

    /// Appends the piece of the next cycle to a text.
    pub fn cycle_onto(&mut self, text: &mut Vec<u8>, bus: &Bus) -> Result<(), NoMemory>
        requires room { self.old.cycles < 2 ^ 60 }
        requires fits { FitsWidths self.old.params bus.now }
        ensures params { self.new.params ≡ self.old.params }
        ensures count { OnOk result (self.new.cycles ≡ self.old.cycles + 1) }
        // The text may be the end of what was written, whatever its front is.
        ensures wrote { OnOk result ((buses : List Bus) (front : List ℕ) →
            Wrote self.old buses (front ++ text.old.items)
            → Wrote self.new (buses ++ bus.now ∷ []) (front ++ text.new.items)) }
        ensures err { OnErr result (self.new ≡ self.old) }
        ensures same { OnErr result (text.new.items ≡ text.old.items) }
    {
        let length = text.len();
        let last = self.last.as_ref();
        let values = Values::of(bus);
        if put_cycle(text, &self.params, self.cycles, last, &values).is_err() {
            text.truncate(length);
            return Err(NoMemory);
        }
        self.cycles += 1;
        self.last = Some(values);
        Ok(())
    }

    /// The last piece, behind the cycles so far.
    pub fn end(&self, alloc: Global) -> Result<Vec<u8>, NoMemory>
        ensures { IfOk result (λ piece. (buses : List Bus) (text : List ℕ) →
            Wrote self.now buses text → text ++ piece.items ≡ vcd_text_of self.now.params buses) }
    {
        let mut text = Vec::new(alloc);
        put_end(&mut text, self.cycles)?;
        Ok(text)
    }
}

fn put_header(text: &mut Vec<u8>, params: &Params) -> Result<(), NoMemory>
    requires { IsInRange params.now }
    ensures { OnOk result (text.new.items ≡ text.old.items ++ header_text params.now) }
{
    text.extend_from_slice(b"$timescale 1 ns $end\n")?;
    text.extend_from_slice(b"$scope module xif $end\n")?;
    put_variables(text, params, &Signal::all())?;
    text.extend_from_slice(b"$upscope $end\n")?;
    text.extend_from_slice(b"$enddefinitions $end\n")?;
    Ok(())
}

fn put_variables(text: &mut Vec<u8>, params: &Params, signals: &[Signal]) -> Result<(), NoMemory>
    requires { IsInRange params.now }
    ensures { OnOk result (text.new.items
        ≡ text.old.items ++ flat_map (var_line params.now) (wires params.now signals.now)) }
{
    for signal in signals {
        if signal.width(params) > 0 {
            put_variable(text, params, *signal)?;
        }
    }
    Ok(())
}

/// The lines of a cycle, behind a last one if it isn't the first.
fn put_cycle(
    text: &mut Vec<u8>,
    params: &Params,
    cycle: u64,
    last: Option<&Values>,
    values: &Values,
) -> Result<(), NoMemory>
    requires params { IsInRange params.now }
    requires fits { Fits params.now values.now }
    requires room { cycle < 2 ^ 60 }
    ensures ok { OnOk result (text.new.items ≡ text.old.items
        ++ cycle_text params.now cycle (option_copied last.entry) values.now) }
    // Where memory runs out, some of the lines may stand behind the text.
    ensures err { OnErr result
        (take (length text.old.items) text.new.items ≡ text.old.items) }
{
    put_edge(text, cycle, 0, 0)?;
    put_changes(text, params, last, values, &Signal::all()[1..])?;
    put_edge(text, cycle, 5, 1)
}

fn put_changes(
    text: &mut Vec<u8>,
    params: &Params,
    last: Option<&Values>,
    values: &Values,
    signals: &[Signal],
) -> Result<(), NoMemory>
    requires params { IsInRange params.now }
    requires fits { Fits params.now values.now }
    requires signals { AllByRecursion (λ s. s ≢ Clk) signals.now }
    ensures ok { OnOk result (text.new.items ≡ text.old.items
        ++ flat_map (changed_line params.now (option_copied last.entry) values.now)
        (wires params.now signals.now)) }
    ensures err { OnErr result
        (take (length text.old.items) text.new.items ≡ text.old.items) }
{
    for signal in signals {
        put_changed(text, params, last, values, *signal)?;
    }
    Ok(())
}

/// The line of one signal, where it is there and its value changed.
#[inline(always)]
fn put_changed(
    text: &mut Vec<u8>,
    params: &Params,
    last: Option<&Values>,
    values: &Values,
    signal: Signal,
) -> Result<(), NoMemory>
    requires params { IsInRange params.now }
    requires fits { Fits params.now values.now }
    requires signal { signal ≢ Clk }
    ensures ok { OnOk result (text.new.items
        ≡ text.old.items ++ (if nat_lt 0 (width_of signal params.now)
        then changed_line params.now (option_copied last.entry) values.now signal else [])) }
    ensures err { OnErr result (text.new.items ≡ text.old.items) }
{
    if has_same(last, values, signal) {
        return Ok(());
    }
    put_value(text, params, values, signal)
}

/// The line of one signal, where it is there.
#[inline(never)]
fn put_value(
    text: &mut Vec<u8>,
    params: &Params,
    values: &Values,
    signal: Signal,
) -> Result<(), NoMemory>
    requires params { IsInRange params.now }
    requires fits { Fits params.now values.now }
    requires signal { signal ≢ Clk }
    ensures ok { OnOk result (text.new.items
        ≡ text.old.items ++ (if nat_lt 0 (width_of signal params.now)
        then change_line (width_of signal params.now) (code_of signal)
        (value_in values.now signal) else [])) }
    ensures err { OnErr result (text.new.items ≡ text.old.items) }
{
    let width = signal.width(params);
    if width == 0 {
        return Ok(());
    }
    put_change(text, width, signal.code(), values.get(signal))
}

/// Whether a signal has the value that it had in the last cycle.
#[inline(always)]
fn has_same(last: Option<&Values>, values: &Values, signal: Signal) -> bool
    requires { signal ≢ Clk }
    ensures { result ≡ is_same (option_copied last.entry) values.now signal }
{
    match last {
        Some(last) => last.get(signal) == values.get(signal),
        None => false,
    }
}

fn put_end(text: &mut Vec<u8>, cycles: u64) -> Result<(), NoMemory>
    requires { cycles ≤ 2 ^ 60 }
    ensures { OnOk result (text.new.items ≡ text.old.items ++ end_text cycles) }
{
    put_edge(text, cycles, 0, 0)
}
