//! The files of a run.
ghost use Rattle.std.specs.Prelude.{◌≡◌, ◌⊎◌, IfErr, IfOk, OnOk, OnErr};
ghost use Rattle.std.specs.String.{string_bytes};
ghost use Rattle.cycle_spec.specs.Engine.{units_of};
ghost use Rattle.cycle_spec.specs.Run.{end_by, run_of};
ghost use Rattle.trace_laws.specs.Sessions.{HasBytes};
ghost use Rattle.xif_job.specs.Ranges.{IsLawfulJob};
ghost use Rattle.xif_sim.specs.Setup.{IsLawfulSetup};
ghost use Rattle.xif_sim.specs.Simulating.{meaning};
ghost use Rattle.xif_targets.specs.Writing.{IsWritten, IsWrittenInPart, IsUncounted, IsCountedFail};
ghost use Rattle.xif_cli.specs.Concluding.{IsFailStatus, WritesRun};
ghost use Rattle.xif_cli.specs.InOrder.{step_start};
ghost use Rattle.xif_cli.specs.Simulated.{setup_of, run_by, targets_of, trace_and_log, stop_of, simulated_text, simulated_report};

use crate::report::simulated_report;
use crate::status::Status;
use std::alloc::Global;
use traced_run::{Traced, run_traced};
use xif_base::{NoMemory, Shelf, Which, WriteFail};
use xif_drive::{Backward, Bimodal, Listed, Never, Predictor};
use xif_image::{Image, Memory};
use xif_job::{Job, Kind};
use xif_sim::Setup;
use xif_targets::write_file;

/// Where the writing of a run's files stopped, and why.
#[derive(Clone, Copy, Debug, PartialEq, Eq)]
pub(crate) struct Stop {
    pub which: Which,
    pub fail: WriteFail,
}

impl Stop {
    /// The status of a command that stops so.
    pub(crate) fn status(self) -> Status
        ensures { IsFailStatus self.which self.fail result }
    {
        match self.fail {
            WriteFail::Failed => Status::WriteFault(self.which),
            WriteFail::NoMemory => Status::NoMemory,
        }
    }
}

/// Simulates a job with its image, and writes the trace while the run goes on, and then the log.
/// The report, which is yet to be printed, is returned.
pub(crate) fn write_run<S: Shelf>(
    alloc: Global,
    job: &Job,
    image: &Image,
    shelf: &mut S,
) -> Result<String, Stop>
    requires lawful { IsLawfulJob job.now }
    requires memory { (image.now.base ≡ job.now.base) × (image.now.size ≡ job.now.size) }
    ensures writes { let run = run_by (job.now).predictor (setup_of job.now image.now) in
        WritesRun S.files S.fetch_faults S.write_faults S.faultless shelf.old shelf.new
        (targets_of job.now run)
        (simulated_report run (step_start job.now image.now).memory.bytes) result }
    ensures bytes { IfOk result (λ _. HasBytes (step_start job.now image.now).memory) }
{
    let Ok(setup) = setup(alloc, job, image) else {
        return Err(UNTOUCHED);
    };
    let (trace, log) = (job.trace.as_str(), job.log.as_str());
    match &job.predictor {
        Kind::Never => write_with(alloc, &setup, &mut Never::new(), trace, log, shelf),
        Kind::Backward => write_with(alloc, &setup, &mut Backward::new(), trace, log, shelf),
        Kind::Bimodal { bits } => match Bimodal::new(alloc, *bits) {
            Ok(mut predictor) => write_with(alloc, &setup, &mut predictor, trace, log, shelf),
            Err(NoMemory) => Err(UNTOUCHED),
        },
        Kind::Listed { targets } => match Listed::new(alloc, targets.as_slice()) {
            Ok(mut predictor) => write_with(alloc, &setup, &mut predictor, trace, log, shelf),
            Err(NoMemory) => Err(UNTOUCHED),
        },
    }
}

// Memory was out before anything was written.
const UNTOUCHED: Stop = Stop {
    which: Which::Trace,
    fail: WriteFail::NoMemory,
};

// What the run of a job is made of, but for its predictor.
fn setup(alloc: Global, job: &Job, image: &Image) -> Result<Setup, NoMemory>
    requires lawful { IsLawfulJob job.now }
    requires memory { (image.now.base ≡ job.now.base) × (image.now.size ≡ job.now.size) }
    ensures setup { IfOk result (λ setup. setup ≡ setup_of job.now image.now) }
    ensures lawful { IfOk result IsLawfulSetup }
    ensures bytes { IfOk result (λ setup. HasBytes setup.memory) }
{
    let mut memory = Memory::new(alloc, job.base, job.size)?;
    memory.place(image);
    let setup = Setup {
        params: job.params,
        set: job.set.copy(alloc)?,
        script: job.script.copy(alloc)?,
        window: job.window,
        budget: job.budget,
        memory,
        entry: job.entry,
    };
    setup.has_bytes();
    Ok(setup)
}

// Runs a setup with a predictor, and writes trace and log.
fn write_with<S: Shelf, P: Predictor>(
    alloc: Global,
    setup: &Setup,
    predictor: &mut P,
    trace: &str,
    log: &str,
    shelf: &mut S,
) -> Result<String, Stop>
    requires { IsLawfulSetup setup.now }
    ensures { let run = run_of (meaning P.answer P.after) setup.now predictor.old in
        WritesRun S.files S.fetch_faults S.write_faults S.faultless shelf.old shelf.new
        (trace_and_log (setup.now).params trace.now log.now run)
        (simulated_report run (setup.now).memory.bytes) result }
{
    match run_traced(alloc, setup, predictor, shelf, trace) {
        Ok(traced) => write_log(alloc, &traced, setup.memory.bytes(), log, shelf),
        Err(fail) => Err(Stop {
            which: Which::Trace,
            fail,
        }),
    }
}

// Writes the log of a run, and returns its report. That is made before, so that memory can't run
// out behind the files.
fn write_log<S: Shelf>(
    alloc: Global,
    traced: &Traced,
    before: &[u8],
    name: &str,
    shelf: &mut S,
) -> Result<String, Stop>
    ensures report { let core = (traced.now).simulation.machines.core in
        IfOk result (λ text. string_bytes text ≡ simulated_text (stop_of (end_by core.stopped))
        core.pc (traced.now).counts.retired (traced.now).counts.cycles core.registers
        (units_of (traced.now).simulation.machines.engine 0) before.now core.memory) }
    ensures whole { OnOk result (IsWritten (S.files shelf.old) (S.files shelf.new) name.now
        (string_bytes (traced.now).log)) }
    ensures uncounted { OnOk result (IsUncounted S.fetch_faults S.write_faults S.faultless
        shelf.old shelf.new) }
    ensures part { OnErr result ((S.files shelf.new ≡ S.files shelf.old)
        ⊎ IsWrittenInPart (S.files shelf.old) (S.files shelf.new) name.now
        (string_bytes (traced.now).log)) }
    ensures log { IfErr result (λ stop. stop.which ≡ Which.Log) }
    ensures counted { IfErr result (λ stop. IsCountedFail S.fetch_faults S.write_faults S.faultless
        shelf.old shelf.new stop.fail) }
{
    let Ok(report) = simulated_report(alloc, &traced.simulation, traced.counts, before) else {
        return Err(Stop {
            which: Which::Log,
            fail: WriteFail::NoMemory,
        });
    };
    match write_file(shelf, name, traced.log.as_bytes()) {
        Ok(()) => Ok(report),
        Err(fail) => Err(Stop {
            which: Which::Log,
            fail,
        }),
    }
}
