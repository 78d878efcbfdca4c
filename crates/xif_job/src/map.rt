//! The table `map` of a job: where the signals are found in a waveform.
ghost use Rattle.std.specs.Prelude.{◌≡◌, ◌≤◌, ◌-◌, ◌^◌, codes, map};
ghost use Rattle.toml.specs.View.{table_view, view};
ghost use Rattle.xif_base.specs.Params.{IsInRange};
ghost use Rattle.xif_signals.specs.Signal.{signals, name_of};
ghost use Rattle.xif_job.specs.FieldTable.{bits_in, constant_in, place_in, places_in, map_of};
ghost use Rattle.xif_job.specs.Outcome.{ReadsAs};
ghost use Rattle.xif_job.specs.Readers.{◌at◌, table_in};
ghost use Rattle.xif_job.specs.Tables.{members, data_of, texts_of};

use crate::readers::{Absent, Range, any_text, find, integer, number_u32, optional, table};
use crate::{Field, JobFault};
use std::alloc::Global;
use toml::{Table, Value};
use xif_base::{Name, Params};
use xif_sampler::{Place, SignalMap};
use xif_signals::Signal;

/// The bits of a variable that may be named.
const BITS: Range = Range {
    low: 0,
    high: 1_048_575,
};

/// The table `map`. The parameters say how many bits a constant may have.
#[tactic(auto, unfolding(crate::specs::FieldTable::map_of))]
pub(crate) fn read_map(alloc: Global, top: &Table, params: &Params) -> Result<SignalMap, JobFault>
    requires { IsInRange params.now }
    ensures { ReadsAs (λ m. m) result (map_of params.now (table_view top.now)) }
{
    let table = find_map(top)?;
    read_places(alloc, table, params)
}

/// The table `map` itself, which has the names of signals and no others.
fn find_map(top: &Table) -> Result<Option<&Table>, JobFault>
    ensures { ReadsAs members result
        (table_in (Field.Map Signal.Clk) (map name_of signals) (table_view top.now at "map")) }
{
    let names = names();
    let found = find(Some(top), "map");
    table(Field::Map(Signal::Clk), &names, found)
}

/// The names of the signals.
fn names() -> [&'static str; 29]
    ensures { texts_of result ≡ map name_of signals }
{
    let signals = Signal::all();
    let mut names = [""; 29];
    for i in 0..29 {
        names[i] = signals[i].name();
    }
    names
}

fn read_places(alloc: Global, table: Option<&Table>, params: &Params) -> Result<SignalMap, JobFault>
    requires { IsInRange params.now }
    ensures { ReadsAs (λ m. m) result (places_in params.now (members table.entry) signals) }
{
    let signals = Signal::all();
    let mut map = SignalMap::new();
    for signal in &signals {
        let found = find(table, signal.name());
        map.set(*signal, read_place(alloc, *signal, params, found)?);
    }
    Ok(map)
}

/// The place of a signal: a text is the name of a variable, and an integer is a constant.
fn read_place(
    alloc: Global,
    signal: Signal,
    params: &Params,
    value: Option<&Value>,
) -> Result<Place, JobFault>
    requires { IsInRange params.now }
    ensures { ReadsAs (λ p. p) result (place_in params.now signal (data_of value.entry)) }
{
    let Some(value) = value else {
        return Ok(Place::Default);
    };
    if value.is_integer() {
        return read_constant(signal, params, value);
    }
    match value.as_str() {
        Some(name) => Ok(Place::Variable {
            name: Name::of(alloc, name)?,
            low: 0,
            high: None,
        }),
        None => read_bits(alloc, signal, value),
    }
}

#[tactic(auto, unfolding(crate::specs::FieldTable::constant_in))]
fn read_constant(signal: Signal, params: &Params, value: &Value) -> Result<Place, JobFault>
    requires { IsInRange params.now }
    ensures { result ≡ constant_in params.now signal (view value.now) }
{
    let field = Field::Map(signal);
    if signal == Signal::Clk {
        return Err(JobFault::WrongKind(field));
    }
    let range = Range {
        low: 0,
        high: largest(signal.width(params)),
    };
    Ok(Place::Constant(integer(field, range, value)?))
}

/// The largest number of so many bits.
fn largest(width: u8) -> u64
    requires { width ≤ 64 }
    ensures { result ≡ 2 ^ width - 1 }
{
    if width == 64 {
        u64::MAX
    } else {
        (1 << width) - 1
    }
}

/// Bits of a variable, which a table gives. A value that is no table is of the wrong kind.
#[tactic(auto, unfolding(crate::specs::FieldTable::bits_in))]
fn read_bits(alloc: Global, signal: Signal, value: &Value) -> Result<Place, JobFault>
    ensures { ReadsAs (λ p. p) result (bits_in signal (view value.now)) }
{
    let field = Field::Map(signal);
    let table = table(field, &["var", "low", "high"], Some(value))?;
    let name = any_text(alloc, field, find(table, "var"))?;
    let low = number_u32(field, BITS, Absent::Default(0), find(table, "low"))?;
    let high = optional(field, BITS, find(table, "high"))?;
    Ok(Place::Variable { name, low, high })
}
