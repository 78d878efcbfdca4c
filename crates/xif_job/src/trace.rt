//! The files that a run writes.
ghost use Rattle.std.specs.Prelude.{◌≡◌, ◌≢◌, IfOk};
ghost use Rattle.toml.specs.View.{table_view};
ghost use Rattle.xif_job.specs.FieldTable.{trace_of, differs};
ghost use Rattle.xif_job.specs.Outcome.{ReadsAs};

use crate::readers::{demand, find, table, text_or};
use crate::{Field, JobFault};
use std::alloc::Global;
use toml::Table;
use xif_base::Name;

/// The names in the table `trace`.
const NAMES: [&str; 2] = ["vcd", "log"];

/// The names of the files of the waveform and of the log.
#[derive(Debug, Drop)]
pub(crate) struct Trace {
    pub vcd: Name,
    pub log: Name,
}

/// The table `trace`. `file` is the name of the image's file.
#[tactic(auto, unfolding(crate::specs::FieldTable::trace_of))]
pub(crate) fn read_trace(alloc: Global, top: &Table, file: &Name) -> Result<Trace, JobFault>
    ensures value { ReadsAs (λ t. t) result (trace_of file.now (table_view top.now)) }
    ensures vcd { IfOk result (λ t. t.vcd ≢ file.now) }
    ensures log { IfOk result (λ t. t.log ≢ file.now) }
    ensures texts { IfOk result (λ t. t.log ≢ t.vcd) }
{
    let table = table(Field::TraceVcd, &NAMES, find(Some(top), "trace"))?;
    let vcd = text_or(alloc, Field::TraceVcd, "trace.vcd", find(table, "vcd"))?;
    differs(Field::TraceVcd, &vcd, file)?;
    let log = text_or(alloc, Field::TraceLog, "trace.log", find(table, "log"))?;
    differs(Field::TraceLog, &log, file)?;
    differs(Field::TraceLog, &log, &vcd)?;
    Ok(Trace { vcd, log })
}

/// Tests that a name is another one than this.
fn differs(field: Field, name: &Name, other: &Name) -> Result<(), JobFault>
    ensures exact { result ≡ differs field name.now other.now }
    ensures differs { IfOk result (λ _. name.now ≢ other.now) }
{
    demand(field, name.as_str() != other.as_str())
}
