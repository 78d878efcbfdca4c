//! The coprocessor units of a job.
ghost use Rattle.std.specs.Prelude.{◌≡◌, ◌++◌, ◌∷◌, [], IfOk};
ghost use Rattle.coproc_config.specs.Check.{checks, IsLawful};
ghost use Rattle.toml.specs.View.{table_view, items_view, view};
ghost use Rattle.xif_base.specs.Checks.{first_failing};
ghost use Rattle.xif_job.specs.FieldTable.{units_of, unit_in, entry_in, lawful};
ghost use Rattle.xif_job.specs.Outcome.{added, ReadsAs};
ghost use Rattle.xif_job.specs.Readers.{each};

use crate::readers::{Absent, Range, array, choice, find, number_u8, number_u32, table};
use crate::{Field, JobFault};
use coproc_config::{Entry, Op, Set};
use std::alloc::Global;
use toml::{Table, Value};
use xif_base::NoMemory;

/// The names in an item of `unit`, and in one of `unit.entry`.
const UNIT_NAMES: [&str; 2] = ["accumulators", "entry"];

const ENTRY_NAMES: [&str; 6] = ["mask", "match", "op", "acc", "low", "len"];

/// The instruction words, which masks and matches are.
const WORDS: Range = Range {
    low: 0,
    high: 4_294_967_295,
};

/// The words of the operations.
const OPERATIONS: [(&str, Op); 16] = [
    ("extract_u", Op::ExtractU),
    ("extract_s", Op::ExtractS),
    ("insert", Op::Insert),
    ("reverse", Op::Reverse),
    ("ones", Op::Ones),
    ("merge", Op::Merge),
    ("acc_clear", Op::AccClear),
    ("acc_add", Op::AccAdd),
    ("acc_mac", Op::AccMac),
    ("acc_read_low", Op::AccReadLow),
    ("acc_read_high", Op::AccReadHigh),
    ("acc_swap", Op::AccSwap),
    ("pair_add", Op::PairAdd),
    ("pair_mul", Op::PairMul),
    ("pair_read", Op::PairRead),
    ("pair_sum", Op::PairSum),
];

/// The array of tables `unit`.
#[tactic(auto, unfolding(crate::specs::FieldTable::units_of))]
pub(crate) fn read_units(alloc: Global, top: &Table) -> Result<Set, JobFault>
    ensures { ReadsAs (λ s. s) result (units_of (table_view top.now)) }
{
    let units = array(Field::Unit, find(Some(top), "unit"))?;
    read_set(alloc, units)
}

fn read_set(alloc: Global, values: &[Value]) -> Result<Set, JobFault>
    ensures { ReadsAs (λ s. s) result (each unit_in (items_view values.now)) }
{
    let mut set = Set::new(alloc);
    for value in values {
        read_unit(alloc, &mut set, value)?;
    }
    Ok(set)
}

/// A unit, which is added to a set.
#[tactic(auto, unfolding(crate::specs::FieldTable::unit_in))]
fn read_unit(alloc: Global, set: &mut Set, value: &Value) -> Result<(), JobFault>
    ensures { ReadsAs (λ _. set.new) result (added set.old (unit_in (view value.now))) }
{
    let table = table(Field::Unit, &UNIT_NAMES, Some(value))?;
    let found = find(table, "accumulators");
    let counts = Range { low: 0, high: 16 };
    let accumulators = number_u8(Field::UnitAccumulators, counts, Absent::Default(0), found)?;
    let entries = array(Field::UnitEntry, find(table, "entry"))?;
    let entries = read_entries(alloc, entries)?;
    add_unit(set, accumulators, &entries)?;
    Ok(())
}

fn read_entries(alloc: Global, values: &[Value]) -> Result<Vec<Entry>, JobFault>
    ensures { ReadsAs (λ v. v.items) result (each entry_in (items_view values.now)) }
{
    let mut entries = Vec::new(alloc);
    for value in values {
        entries.push(read_entry(value)?)?;
    }
    Ok(entries)
}

#[tactic(auto, unfolding(crate::specs::FieldTable::entry_in))]
fn read_entry(value: &Value) -> Result<Entry, JobFault>
    ensures { ReadsAs (λ e. e) result (entry_in (view value.now)) }
{
    let table = table(Field::UnitEntry, &ENTRY_NAMES, Some(value))?;
    let found = find(table, "mask");
    let mask = number_u32(Field::UnitEntryMask, WORDS, Absent::Missing, found)?;
    let found = find(table, "match");
    let matched = number_u32(Field::UnitEntryMatch, WORDS, Absent::Missing, found)?;
    let found = find(table, "op");
    let op = choice(Field::UnitEntryOp, &OPERATIONS, Absent::Missing, found)?;
    let range = Range { low: 0, high: 15 };
    let found = find(table, "acc");
    let acc = number_u8(Field::UnitEntryAcc, range, Absent::Default(0), found)?;
    let range = Range { low: 0, high: 31 };
    let found = find(table, "low");
    let low = number_u8(Field::UnitEntryLow, range, Absent::Default(0), found)?;
    let range = Range { low: 1, high: 32 };
    let found = find(table, "len");
    let len = number_u8(Field::UnitEntryLen, range, Absent::Default(32), found)?;
    Ok(Entry {
        mask,
        matched,
        op,
        acc,
        low,
        len,
    })
}

/// Adds a unit with these entries to a set.
fn add_unit(set: &mut Set, accumulators: u8, entries: &[Entry]) -> Result<(), NoMemory>
    ensures { IfOk result (λ _.
        set.new ≡ set.old ++ record { accumulators = accumulators; entries = entries.now } ∷ []) }
{
    set.unit(accumulators)?;
    for entry in entries {
        set.entry(*entry)?;
    }
    Ok(())
}

/// Tests that a set is lawful, and returns its first fault where it isn't.
pub(crate) fn check_set(set: &Set) -> Result<(), JobFault>
    ensures exact { result ≡ lawful (first_failing (checks set.now)) }
    ensures lawful { IfOk result (λ _. IsLawful set.now) }
{
    match set.check() {
        Ok(()) => Ok(()),
        Err(fault) => Err(JobFault::Set(fault)),
    }
}
