//! Maps of signals to the variables of a waveform: the first fault of each, as a text.
ghost use Rattle.xif_base.specs.Params.{IsInRange};

use std::alloc::Global;
use std::test::Fail;
use vcd_text::{Declarations, Variable};
use xif_base::{Name, NoMemory, Params};
use xif_sampler::{MapFail, MapFault, Place, Sampler, SignalMap};
use xif_signals::Signal;

/// A place as it is written here.
#[derive(Clone, Copy)]
pub(crate) enum Spot {
    Left,
    Named(&'static str, u32, Option<u32>),
    Number(u64),
}

/// The map that has these places, and one place for all other signals.
pub(crate) fn map_of(
    alloc: Global,
    table: &[(Signal, Spot)],
    others: Spot,
) -> Result<SignalMap, NoMemory> {
    let mut map = SignalMap::new();
    for signal in Signal::all() {
        map.set(signal, place_of(alloc, others)?);
    }
    for (signal, spot) in table {
        map.set(*signal, place_of(alloc, *spot)?);
    }
    Ok(map)
}

fn place_of(alloc: Global, spot: Spot) -> Result<Place, NoMemory> {
    Ok(match spot {
        Spot::Left => Place::Default,
        Spot::Named(name, low, high) => Place::Variable {
            name: Name::of(alloc, name)?,
            low,
            high,
        },
        Spot::Number(value) => Place::Constant(value),
    })
}

/// Two registers of 64 bits are read.
pub(crate) fn params_of_64_bits() -> Params
    ensures { IsInRange result }
{
    Params {
        num_rs: 2,
        id_width: 3,
        rfr_width: 64,
        rfw_width: 64,
        num_harts: 1,
        hartid_width: 1,
        dual_read: 0,
        dual_write: false,
        split: true,
        profile: 1,
    }
}

/// Variables with their codes and sizes.
const NAMES: [(&str, u32, u32); 9] = [
    ("c", 0, 1),
    ("byte", 1, 8),
    ("twice", 2, 1),
    ("twice", 3, 1),
    ("same", 4, 4),
    ("same", 4, 4),
    ("empty", 5, 0),
    ("xif.issue_id", 1, 8),
    ("xif.rst_nn", 0, 1),
];

/// A place of one signal, all others being constants.
const SPOTS: [(Signal, Spot); 20] = [
    (Signal::Clk, Spot::Named("c", 0, None)),
    (Signal::Clk, Spot::Named("d", 0, None)),
    (Signal::IssueValid, Spot::Left),
    (Signal::IssueId, Spot::Left),
    (Signal::RstN, Spot::Left),
    (Signal::IssueValid, Spot::Named("twice", 0, None)),
    (Signal::IssueValid, Spot::Named("same", 3, None)),
    (Signal::IssueValid, Spot::Named("same", 4, None)),
    (Signal::IssueValid, Spot::Named("empty", 0, None)),
    (Signal::IssueId, Spot::Named("byte", 5, None)),
    (Signal::IssueId, Spot::Named("byte", 6, None)),
    (
        Signal::IssueId,
        Spot::Named("byte", u32::MAX, Some(u32::MAX)),
    ),
    (Signal::IssueId, Spot::Named("byte", 5, Some(7))),
    (Signal::IssueId, Spot::Named("byte", 0, Some(7))),
    (Signal::IssueId, Spot::Named("byte", 0, Some(8))),
    (Signal::IssueId, Spot::Named("byte", 2, Some(4))),
    (Signal::IssueId, Spot::Named("byte", 2, Some(3))),
    (Signal::RegisterRs2, Spot::Named("d", 40, Some(3))),
    (Signal::RegisterRs2, Spot::Named("twice", 40, Some(3))),
    (Signal::RegisterRs2, Spot::Left),
];

/// Two signals that have a fault: the first in the order of the table counts, whichever was set
/// first.
const BOTH: [(Signal, Spot); 2] = [
    (Signal::ResultWe, Spot::Named("d", 0, None)),
    (Signal::IssueValid, Spot::Named("same", 4, None)),
];

const FAULTS: &str = "\
None
Some(Missing(clk))
Some(Missing(issue_valid))
None
None
Some(Ambiguous(issue_valid))
None
Some(Narrow(issue_valid))
Some(Narrow(issue_valid))
None
Some(Narrow(issue_id))
Some(Narrow(issue_id))
None
None
Some(Narrow(issue_id))
None
Some(Narrow(issue_id))
None
None
None
Some(Narrow(issue_valid))
";

fn declared(alloc: Global, table: &[(&'static str, u32, u32)]) -> Result<Declarations, NoMemory> {
    let mut declarations = Declarations::new(alloc);
    for (name, code, size) in table {
        declarations.push(Variable {
            name: Name::of(alloc, name)?,
            code: *code,
            size: *size,
        })?;
    }
    Ok(declarations)
}

/// The fault of a map, if it has one.
fn fault_of(alloc: Global, places: &[(Signal, Spot)]) -> Result<Option<MapFault>, NoMemory> {
    let declarations = declared(alloc, &NAMES)?;
    let map = map_of(alloc, places, Spot::Number(0))?;
    match Sampler::new(alloc, &map, &declarations, &params_of_64_bits()) {
        Ok(_) => Ok(None),
        Err(MapFail::Map(fault)) => Ok(Some(fault)),
        Err(MapFail::NoMemory) => Err(NoMemory),
    }
}

#[test]
fn faults_of_maps(rt: HostRuntime) -> Result<(), Fail> {
    let text = text_of_faults(rt.alloc())?;
    assert_eq!(rt; text.as_str(), FAULTS);
    Ok(())
}

/// The fault of each map, a line each.
fn text_of_faults(alloc: Global) -> Result<String, Fail> {
    let mut text = String::new(alloc);
    for spot in &SPOTS {
        writeln!(text, "{:?}", fault_of(alloc, &[*spot])?)?;
    }
    writeln!(text, "{:?}", fault_of(alloc, &BOTH)?)?;
    Ok(text)
}

#[test]
fn places_of_a_map(rt: HostRuntime) {
    let mut map = SignalMap::new();
    map.set(Signal::IssueValid, Place::Constant(7));
    assert!(rt; matches!(map.get(Signal::IssueValid), Place::Constant(7)));
    assert!(rt; matches!(map.get(Signal::IssueId), Place::Default));
}
