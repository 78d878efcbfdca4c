//! The table `core` of a job.
ghost use Rattle.std.specs.Prelude.{◌≡◌, ◌≤◌, ◌^◌, IfOk, min};
ghost use Rattle.toml.specs.View.{table_view};
ghost use Rattle.xif_job.specs.FieldTable.{core_of};
ghost use Rattle.xif_job.specs.Outcome.{ReadsAs};
ghost use Rattle.xif_job.specs.Ranges.{IsLawfulWindow, IsLawfulBudget, IsLawfulKind};

use crate::predictor::{Kind, read_predictor};
use crate::readers::{Absent, Range, find, number_u8, number_u32, table};
use crate::{Field, JobFault};
use std::alloc::Global;
use toml::Table;

/// The names in the table `core`.
const NAMES: [&str; 5] = ["window", "budget", "predictor", "bits", "targets"];

/// The core: its window in instructions (1 to 32), its budget in cycles (1 to 200,000) and its
/// predictor.
#[derive(Debug, Drop)]
pub(crate) struct Core {
    pub window: u8,
    pub budget: u32,
    pub predictor: Kind,
}

/// The table `core`. An id of an instruction has `id_width` bits.
#[tactic(auto, unfolding(crate::specs::FieldTable::core_of))]
pub(crate) fn read_core(alloc: Global, top: &Table, id_width: u8) -> Result<Core, JobFault>
    requires { 3 ≤ id_width }
    ensures value { ReadsAs (λ c. c) result (core_of id_width (table_view top.now)) }
    ensures window { IfOk result (λ c. IsLawfulWindow id_width c.window) }
    ensures budget { IfOk result (λ c. IsLawfulBudget c.budget) }
    ensures predictor { IfOk result (λ c. IsLawfulKind c.predictor) }
{
    let table = table(Field::CoreWindow, &NAMES, find(Some(top), "core"))?;
    let windows = Range {
        low: 1,
        high: u64::from(most_window(id_width)),
    };
    let found = find(table, "window");
    let window = number_u8(Field::CoreWindow, windows, Absent::Default(8), found)?;
    let budgets = Range {
        low: 1,
        high: 200_000,
    };
    let found = find(table, "budget");
    let budget = number_u32(Field::CoreBudget, budgets, Absent::Default(10_000), found)?;
    let predictor = read_predictor(alloc, table)?;
    Ok(Core {
        window,
        budget,
        predictor,
    })
}

/// The largest window: 32, and no more than there are ids.
fn most_window(id_width: u8) -> u8
    requires { 3 ≤ id_width }
    ensures value { result ≡ min 32 (2 ^ id_width) }
    ensures default { 8 ≤ result }
{
    match id_width {
        3 => 8,
        4 => 16,
        _ => 32,
    }
}
