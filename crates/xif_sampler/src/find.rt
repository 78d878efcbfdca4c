//! Finds where the bits of each signal come from, by a map and the variables of a waveform.
ghost use Rattle.std.specs.Prelude.{◌≡◌, ◌≤◌, string_bytes, bytes_eq, Ok, Err, IfOk, MatchResult};
ghost use Rattle.xif_base.specs.Params.{IsInRange};
ghost use Rattle.xif_signals.specs.Signal.{width_of};
ghost use Rattle.xif_sampler.specs.Steps.{bits_taken, AreWithin};
ghost use Rattle.xif_sampler.specs.Places.{named, has_named, variable_of, is_narrow, bits_named, default_name, source_in, source_of, sources_along, sources_of, FindsAs};

use crate::fault::{MapFail, MapFault};
use crate::place::{Place, SignalMap};
use crate::source::Source;
use std::alloc::{AllocError, Global};
use vcd_text::Variable;
use xif_base::{Name, Params};
use xif_signals::Signal;

/// The sources of all signals, in the order of the table.
pub fn find_sources(
    alloc: Global,
    map: &SignalMap,
    variables: &[Variable],
    params: &Params,
) -> Result<[Source; 29], MapFail>
    requires { IsInRange params.now }
    ensures found { FindsAs result (sources_of map.now variables.now params.now) }
    ensures within { IfOk result (λ sources. AreWithin 64 sources) }
{
    find_along(alloc, map, variables, params, &Signal::all())
}

/// The sources of signals, in their order.
fn find_along(
    alloc: Global,
    map: &SignalMap,
    variables: &[Variable],
    params: &Params,
    signals: &[Signal; 29],
) -> Result<[Source; 29], MapFail>
    requires { IsInRange params.now }
    ensures found { FindsAs result
        (sources_along (source_of map.now variables.now params.now) signals.now) }
    ensures within { IfOk result (λ sources. AreWithin 64 sources) }
{
    let mut sources = [Source::Fixed(0); 29];
    for (i, signal) in signals.iter().enumerate() {
        sources[i] = find_source(alloc, map, variables, params, *signal)?;
    }
    Ok(sources)
}

fn find_source(
    alloc: Global,
    map: &SignalMap,
    variables: &[Variable],
    params: &Params,
    signal: Signal,
) -> Result<Source, MapFail>
    requires { IsInRange params.now }
    ensures found { FindsAs result (source_of map.now variables.now params.now signal) }
    ensures within { IfOk result (λ source. bits_taken source ≤ 64) }
{
    let width = signal.width(params);
    if width == 0 {
        return Ok(Source::Fixed(0));
    }
    find_place(alloc, variables, signal, width, map.get(signal))
}

/// The source of a signal that has bits.
fn find_place(
    alloc: Global,
    variables: &[Variable],
    signal: Signal,
    width: u8,
    place: &Place,
) -> Result<Source, MapFail>
    ensures found { FindsAs result (source_in variables.now signal width place.now) }
    ensures within { IfOk result (λ source. bits_taken source ≤ width) }
{
    match place {
        Place::Constant(value) => Ok(Source::Fixed(*value)),
        Place::Variable { name, low, high } => {
            Ok(find_bits(variables, signal, width, name.as_str(), *low, *high)?)
        }
        Place::Default => {
            let name = default_name_of(alloc, signal)?;
            if signal == Signal::RstN && !is_declared(variables, name.as_str()) {
                return Ok(Source::Fixed(1));
            }
            Ok(find_bits(variables, signal, width, name.as_str(), 0, None)?)
        }
    }
}

/// `xif.` and the name of a signal.
fn default_name_of(alloc: Global, signal: Signal) -> Result<String, AllocError>
    ensures { IfOk result (λ name. string_bytes name ≡ default_name signal) }
{
    let mut name = String::from_str(alloc, "xif.")?;
    name.push_str(signal.name())?;
    Ok(name)
}

fn is_declared(variables: &[Variable], name: &str) -> bool
    ensures { result ≡ has_named name.now variables.now }
{
    variables.iter().any(|variable| has_name(variable, name))
}

fn has_name(variable: &Variable, name: &str) -> bool
    ensures { result ≡ bytes_eq variable.now.name name.now }
{
    variable.name.as_str() == name
}

/// The bits that a signal takes of the variable of a name.
fn find_bits(
    variables: &[Variable],
    signal: Signal,
    width: u8,
    name: &str,
    low: u32,
    high: Option<u32>,
) -> Result<Source, MapFault>
    ensures found { result ≡ bits_named variables.now signal width name.now low high }
    ensures within { IfOk result (λ source. bits_taken source ≤ width) }
{
    let variable = find_variable(variables, signal, name)?;
    if is_too_narrow(variable.size, low, high, width) {
        return Err(MapFault::Narrow(signal));
    }
    Ok(Source::Bits {
        code: variable.code,
        low,
        width,
    })
}

fn is_too_narrow(size: u32, low: u32, high: Option<u32>, width: u8) -> bool
    ensures { result ≡ is_narrow size low high width }
{
    let end = u64::from(low) + u64::from(width);
    if u64::from(size) < end {
        return true;
    }
    match high {
        None => false,
        Some(high) => size <= high || u64::from(high) < end.saturating_sub(1),
    }
}

/// The variable of a name, which may be declared more than once with one code.
fn find_variable<'a>(
    variables: &'a [Variable],
    signal: Signal,
    name: &str,
) -> Result<&'a Variable, MapFault>
    ensures { MatchResult result (λ v. variable_of signal (named name.now variables.now) ≡ Ok v.now)
        (λ fault. variable_of signal (named name.now variables.now) ≡ Err fault) }
{
    let mut found: Option<&Variable> = None;
    for variable in variables {
        if has_name(variable, name) {
            match found {
                None => found = Some(variable),
                Some(first) => {
                    if first.code != variable.code {
                        return Err(MapFault::Ambiguous(signal));
                    }
                }
            }
        }
    }
    found.ok_or(MapFault::Missing(signal))
}
