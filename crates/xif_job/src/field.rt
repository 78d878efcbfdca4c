//! The fields of a job file, and what is wrong with one.
ghost use Rattle.std.specs.Prelude.{◌≡◌, ◌++◌, codes};
ghost use Rattle.xif_signals.specs.Signal.{name_of};
ghost use Rattle.xif_job.specs.Field.{dotted, param_field};

use coproc_config::SetFault;
use std::alloc::{AllocError, AllocFailed};
use xif_base::{NoMemory, ParamFault};
use xif_drive::ScriptFault;
use xif_signals::Signal;

/// A field of a job file, or an array of tables. `name` says how the file has it.
#[derive(Clone, Copy, Debug, PartialEq, Eq)]
pub enum Field {
    ParamsNumRs,
    ParamsIdWidth,
    ParamsRfrWidth,
    ParamsRfwWidth,
    ParamsNumHarts,
    ParamsHartidWidth,
    ParamsDualRead,
    ParamsDualWrite,
    ParamsIssueRegisterSplit,
    ParamsProfile,
    MemoryBase,
    MemorySize,
    ImageFile,
    ImageKind,
    ImageLoad,
    ImageEntry,
    CoreWindow,
    CoreBudget,
    CorePredictor,
    CoreBits,
    CoreTargets,
    ScriptIssue,
    ScriptRegister,
    ScriptOperand,
    ScriptResult,
    ScriptTake,
    Unit,
    UnitAccumulators,
    UnitEntry,
    UnitEntryMask,
    UnitEntryMatch,
    UnitEntryOp,
    UnitEntryAcc,
    UnitEntryLow,
    UnitEntryLen,
    TraceVcd,
    TraceLog,
    /// The place of a signal.
    Map(Signal),
}

/// What is wrong with a job file.
#[derive(Clone, Copy, Debug, PartialEq, Eq)]
pub enum JobFault {
    /// The bytes are no TOML, which is text in UTF-8.
    NotToml,
    /// A field that must be there is absent.
    MissingField(Field),
    /// A field is of another kind of value. Where a table should stand and another kind of value
    /// does, it is reported at the table's first field, and for an item of an array at the array.
    WrongKind(Field),
    /// A field has a value of its kind that it can't have, alone or together with other fields. A
    /// field that is absent may be reported so too, where its default can't stand beside a value
    /// that is given.
    OutOfRange(Field),
    /// A name at the top level or in a table is none that may stand there.
    UnknownField,
    /// The units, all of whose fields are in their ranges, are no lawful set.
    Set(SetFault),
    /// The delays, all of which are in their range, are no lawful script.
    Script(ScriptFault),
    /// The program is out of memory.
    NoMemory,
}

impl From<AllocError> for JobFault {
    ghost use Rattle.std.specs.Prelude.{◌≡◌};
    ghost use Rattle.xif_job.specs.declared.field.JobFault.TheVariants.{NoMemory};

    ghost from_gives = { λ _ e. e ≡ NoMemory };

    fn from(_: AllocError) -> Self {
        JobFault::NoMemory
    }
}

impl<T: Drop> From<AllocFailed<T>> for JobFault {
    ghost use Rattle.std.specs.Prelude.{◌≡◌};
    ghost use Rattle.xif_job.specs.declared.field.JobFault.TheVariants.{NoMemory};

    ghost from_gives = { λ _ e. e ≡ NoMemory };

    fn from(_: AllocFailed<T>) -> Self {
        JobFault::NoMemory
    }
}

impl From<NoMemory> for JobFault {
    ghost use Rattle.std.specs.Prelude.{◌≡◌};
    ghost use Rattle.xif_job.specs.declared.field.JobFault.TheVariants.{NoMemory};

    ghost from_gives = { λ _ e. e ≡ NoMemory };

    fn from(_: NoMemory) -> Self {
        JobFault::NoMemory
    }
}

impl Field {
    /// Its name behind those of its tables, with dots, as `memory.base`. A signal's is that of its
    /// place, as `map.clk`.
    pub fn name(&self) -> &'static str
        ensures { result.now ≡ dotted self.now }
    {
        match self {
            Field::ParamsNumRs => "params.x_num_rs",
            Field::ParamsIdWidth => "params.x_id_width",
            Field::ParamsRfrWidth => "params.x_rfr_width",
            Field::ParamsRfwWidth => "params.x_rfw_width",
            Field::ParamsNumHarts => "params.x_num_harts",
            Field::ParamsHartidWidth => "params.x_hartid_width",
            Field::ParamsDualRead => "params.x_dualread",
            Field::ParamsDualWrite => "params.x_dualwrite",
            Field::ParamsIssueRegisterSplit => "params.x_issue_register_split",
            Field::ParamsProfile => "params.profile",
            Field::MemoryBase => "memory.base",
            Field::MemorySize => "memory.size",
            Field::ImageFile => "image.file",
            Field::ImageKind => "image.kind",
            Field::ImageLoad => "image.load",
            Field::ImageEntry => "image.entry",
            Field::CoreWindow => "core.window",
            Field::CoreBudget => "core.budget",
            Field::CorePredictor => "core.predictor",
            Field::CoreBits => "core.bits",
            Field::CoreTargets => "core.targets",
            Field::ScriptIssue => "script.issue",
            Field::ScriptRegister => "script.register",
            Field::ScriptOperand => "script.operand",
            Field::ScriptResult => "script.result",
            Field::ScriptTake => "script.take",
            Field::Unit => "unit",
            Field::UnitAccumulators => "unit.accumulators",
            Field::UnitEntry => "unit.entry",
            Field::UnitEntryMask => "unit.entry.mask",
            Field::UnitEntryMatch => "unit.entry.match",
            Field::UnitEntryOp => "unit.entry.op",
            Field::UnitEntryAcc => "unit.entry.acc",
            Field::UnitEntryLow => "unit.entry.low",
            Field::UnitEntryLen => "unit.entry.len",
            Field::TraceVcd => "trace.vcd",
            Field::TraceLog => "trace.log",
            Field::Map(signal) => map_name(*signal),
        }
    }
}

/// The name of a signal behind that of its table. A text that lives for good is not put together
/// from two, so each stands here whole.
fn map_name(signal: Signal) -> &'static str
    ensures { result.now ≡ codes "map." ++ name_of signal }
{
    match signal {
        Signal::Clk => "map.clk",
        Signal::RstN => "map.rst_n",
        Signal::IssueValid => "map.issue_valid",
        Signal::IssueReady => "map.issue_ready",
        Signal::IssueHartid => "map.issue_hartid",
        Signal::IssueId => "map.issue_id",
        Signal::IssueInstr => "map.issue_instr",
        Signal::IssueAccept => "map.issue_accept",
        Signal::IssueWriteback => "map.issue_writeback",
        Signal::IssueRegisterRead => "map.issue_register_read",
        Signal::RegisterValid => "map.register_valid",
        Signal::RegisterReady => "map.register_ready",
        Signal::RegisterHartid => "map.register_hartid",
        Signal::RegisterId => "map.register_id",
        Signal::RegisterRs0 => "map.register_rs0",
        Signal::RegisterRs1 => "map.register_rs1",
        Signal::RegisterRs2 => "map.register_rs2",
        Signal::RegisterRsValid => "map.register_rs_valid",
        Signal::CommitValid => "map.commit_valid",
        Signal::CommitHartid => "map.commit_hartid",
        Signal::CommitId => "map.commit_id",
        Signal::CommitKill => "map.commit_kill",
        Signal::ResultValid => "map.result_valid",
        Signal::ResultReady => "map.result_ready",
        Signal::ResultHartid => "map.result_hartid",
        Signal::ResultId => "map.result_id",
        Signal::ResultData => "map.result_data",
        Signal::ResultRd => "map.result_rd",
        Signal::ResultWe => "map.result_we",
    }
}

/// The field of a parameter that is out of its range.
pub(crate) fn field_of(fault: ParamFault) -> Field
    ensures { result ≡ param_field fault }
{
    match fault {
        ParamFault::NumRs => Field::ParamsNumRs,
        ParamFault::IdWidth => Field::ParamsIdWidth,
        ParamFault::RfrWidth => Field::ParamsRfrWidth,
        ParamFault::RfwWidth => Field::ParamsRfwWidth,
        ParamFault::NumHarts => Field::ParamsNumHarts,
        ParamFault::HartidWidth => Field::ParamsHartidWidth,
        ParamFault::DualRead => Field::ParamsDualRead,
        ParamFault::Profile => Field::ParamsProfile,
    }
}
