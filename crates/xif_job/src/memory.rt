//! The table `memory` of a job.
ghost use Rattle.std.specs.Prelude.{◌≡◌, ◌≤◌, ◌-◌, ◌^◌, IfOk};
ghost use Rattle.toml.specs.View.{table_view};
ghost use Rattle.xif_job.specs.FieldTable.{memory_of};
ghost use Rattle.xif_job.specs.Outcome.{ReadsAs};
ghost use Rattle.xif_job.specs.Ranges.{IsLawfulMemory};

use crate::readers::{Absent, Range, demand, find, table, word};
use crate::{Field, JobFault};
use toml::Table;

/// The names in the table `memory`.
const NAMES: [&str; 2] = ["base", "size"];

/// The first addresses that a memory may have: a word has room behind each.
const BASES: Range = Range {
    low: 0,
    high: 4_294_967_292,
};

/// The sizes that a memory may have.
const SIZES: Range = Range {
    low: 4,
    high: 1_048_576,
};

/// A memory's first address and its size, in bytes, both multiples of 4. It ends at or before 2^32.
#[derive(Clone, Copy, Debug, PartialEq, Eq)]
pub(crate) struct MemoryRange {
    pub base: u32,
    pub size: u32,
}

/// The table `memory`.
#[tactic(auto, unfolding(crate::specs::FieldTable::memory_of))]
pub(crate) fn read_memory(top: &Table) -> Result<MemoryRange, JobFault>
    ensures value { ReadsAs (λ m. m) result (memory_of (table_view top.now)) }
    ensures base { IfOk result (λ m. m.base ≤ 2 ^ 32 - 4) }
    ensures ranges { IfOk result (λ m. IsLawfulMemory m.base m.size) }
{
    let table = table(Field::MemoryBase, &NAMES, find(Some(top), "memory"))?;
    let found = find(table, "base");
    let base = word(Field::MemoryBase, BASES, Absent::Default(0), found)?;
    let found = find(table, "size");
    let size = word(Field::MemorySize, SIZES, Absent::Default(65_536), found)?;
    let end = u64::from(base) + u64::from(size);
    demand(Field::MemorySize, end <= 1 << 32)?;
    Ok(MemoryRange { base, size })
}
