//! The delays of a job's transactions.
ghost use Rattle.std.specs.Prelude.{◌≡◌, IfOk};
ghost use Rattle.toml.specs.View.{table_view};
ghost use Rattle.xif_drive.specs.Scripts.{IsLawful, script_fault, checked_by};
ghost use Rattle.xif_job.specs.FieldTable.{script_of, drivable};
ghost use Rattle.xif_job.specs.Outcome.{ReadsAs};

use crate::readers::{delays, find, table};
use crate::{Field, JobFault};
use std::alloc::Global;
use toml::Table;
use xif_drive::{Script, ScriptLists};

/// The names in the table `script`.
const NAMES: [&str; 5] = ["issue", "register", "operand", "result", "take"];

/// The table `script`.
#[tactic(auto, unfolding(crate::specs::FieldTable::script_of))]
pub(crate) fn read_script(alloc: Global, top: &Table) -> Result<Script, JobFault>
    ensures { ReadsAs (λ s. s) result (script_of (table_view top.now)) }
{
    let table = table(Field::ScriptIssue, &NAMES, find(Some(top), "script"))?;
    let lists = ScriptLists {
        issue: delays(alloc, Field::ScriptIssue, find(table, "issue"))?,
        register: delays(alloc, Field::ScriptRegister, find(table, "register"))?,
        operand: delays(alloc, Field::ScriptOperand, find(table, "operand"))?,
        result: delays(alloc, Field::ScriptResult, find(table, "result"))?,
        take: delays(alloc, Field::ScriptTake, find(table, "take"))?,
    };
    Ok(Script::new(alloc, &lists)?)
}

/// Tests that a script is lawful, and returns its first fault where it isn't.
pub(crate) fn check_script(script: &Script) -> Result<(), JobFault>
    ensures exact { result ≡ drivable (checked_by (script_fault script.now)) }
    ensures lawful { IfOk result (λ _. IsLawful script.now) }
{
    match script.check() {
        Ok(()) => Ok(()),
        Err(fault) => Err(JobFault::Script(fault)),
    }
}
