//! A job: what one run of the simulator is to do.
ghost use Rattle.std.specs.Prelude.{IfOk};
ghost use Rattle.toml.specs.View.{table_view};
ghost use Rattle.xif_job.specs.FieldTable.{job_of, all_of, read_of};
ghost use Rattle.xif_job.specs.Outcome.{ReadsAs};
ghost use Rattle.xif_job.specs.Ranges.{IsLawfulJob};

use crate::JobFault;
use crate::core_table::read_core;
use crate::document::document;
use crate::image::{ImageSource, read_image};
use crate::map::read_map;
use crate::memory::read_memory;
use crate::params::read_params;
use crate::predictor::Kind;
use crate::readers::has_only;
use crate::script::{check_script, read_script};
use crate::trace::read_trace;
use crate::units::{check_set, read_units};
use coproc_config::Set;
use std::alloc::Global;
use toml::Table;
use xif_base::{Name, Params};
use xif_drive::Script;
use xif_sampler::SignalMap;

/// What a job file says. Behind each field stands what the file calls it, and its default.
#[derive(Debug, Drop)]
pub struct Job {
    /// The table `params`: the parameters of the interface (CV-X-IF 1.0.0, "Parameters"), in their
    /// ranges. By default X_NUM_RS is 2, X_ID_WIDTH 3, X_RFR_WIDTH and X_RFW_WIDTH 32 bits,
    /// X_NUM_HARTS and X_HARTID_WIDTH 1, X_DUALREAD and X_DUALWRITE 0, X_ISSUE_REGISTER_SPLIT 1,
    /// and the profile of the rules 1.
    pub params: Params,
    /// The table `image`: the file of the memory's contents.
    pub image: ImageSource,
    /// `memory.base`, the memory's first address, a multiple of 4. By default it is 0.
    pub base: u32,
    /// `memory.size`, the memory's size in bytes, a multiple of 4 from 4 to 1,048,576. It ends at
    /// or before 2^32. By default it is 65,536.
    pub size: u32,
    /// `image.entry`, the address of the first instruction, a multiple of 4, which may be outside
    /// of the memory. By default it is `base`.
    pub entry: u32,
    /// `core.window`, the number of instructions that the core may have in flight, 1 to 32 and at
    /// most 2^X_ID_WIDTH. By default it is 8.
    pub window: u8,
    /// `core.budget`, 1 to 200,000: where a run stops at the latest, in cycles for a simulation and
    /// in retired instructions for `step`. By default it is 10,000.
    pub budget: u32,
    /// `core.predictor`, with `core.bits` (8 by default) and `core.targets` (the address 0 by
    /// default). By default no branch is predicted to be taken.
    pub predictor: Kind,
    /// The table `script`: the delays of the transactions in cycles, a lawful script. By default
    /// each is 0.
    pub script: Script,
    /// The arrays `unit` and `unit.entry`: the coprocessor's units, a lawful set. By default there
    /// are none.
    pub set: Set,
    /// `trace.vcd`, the name of the file of the waveform that a run writes, another one than the
    /// image's. By default it is `trace.vcd`.
    pub trace: Name,
    /// `trace.log`, the name of the file of the log that a run writes, another one than the image's
    /// and the waveform's. By default it is `trace.log`.
    pub log: Name,
    /// The table `map`: where the signals are found in a waveform. By default each is where the
    /// waveforms of this project have it.
    pub map: SignalMap,
}

/// The names at the top level.
const NAMES: [&str; 8] = [
    "params", "memory", "image", "core", "script", "unit", "trace", "map",
];

impl Job {
    /// Reads the bytes of a job file: what they say, or the first fault in the order of the fields.
    /// `needs_image` says whether the job must name the file of an image.
    pub fn read(alloc: Global, bytes: &[u8], needs_image: bool) -> Result<Job, JobFault>
        ensures exact { ReadsAs (λ job. job) result (read_of needs_image bytes.now) }
        ensures lawful { IfOk result IsLawfulJob }
    {
        let table = document(alloc, bytes)?;
        read_all(alloc, &table, needs_image)
    }
}

/// The tables at the top level.
fn read_all(alloc: Global, top: &Table, needs_image: bool) -> Result<Job, JobFault>
    ensures exact { ReadsAs (λ job. job) result (all_of needs_image (table_view top.now)) }
    ensures lawful { IfOk result IsLawfulJob }
{
    if !has_only(top, &NAMES) {
        return Err(JobFault::UnknownField);
    }
    read_job(alloc, top, needs_image)
}

#[tactic(auto, unfolding(crate::specs::FieldTable::job_of))]
fn read_job(alloc: Global, top: &Table, needs_image: bool) -> Result<Job, JobFault>
    ensures exact { ReadsAs (λ job. job) result (job_of needs_image (table_view top.now)) }
    ensures lawful { IfOk result IsLawfulJob }
{
    let params = read_params(top)?;
    let memory = read_memory(top)?;
    let image = read_image(alloc, top, needs_image, memory.base)?;
    let core = read_core(alloc, top, params.id_width)?;
    let script = read_script(alloc, top)?;
    let set = read_units(alloc, top)?;
    let trace = read_trace(alloc, top, &image.source.file)?;
    let map = read_map(alloc, top, &params)?;
    check_set(&set)?;
    check_script(&script)?;
    Ok(Job {
        params,
        image: image.source,
        base: memory.base,
        size: memory.size,
        entry: image.entry,
        window: core.window,
        budget: core.budget,
        predictor: core.predictor,
        script,
        set,
        trace: trace.vcd,
        log: trace.log,
        map,
    })
}
