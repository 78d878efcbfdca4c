//! A run whose waveform is written to a file.
ghost use Rattle.std.specs.Prelude.{◌≡◌, ◌⊎◌, ◌<◌, ◌+◌, ◌^◌, ◌++◌, ◌∷◌, [], ℕ, List, Option, IfOk, IfErr, OnOk, OnErr};
ghost use Rattle.std.specs.String.{string_bytes};
ghost use Rattle.xif_base.specs.Files.{Files};
ghost use Rattle.xif_signals.specs.declared.bus.Bus.{Bus};
ghost use Rattle.xif_signals.specs.Bus.{FitsWidths};
ghost use Rattle.cycle_spec.specs.Run.{run_of};
ghost use Rattle.run_log.specs.Log.{cycle_text, text_of};
ghost use Rattle.xif_targets.specs.Writing.{IsWritten, IsWrittenInPart, IsUncounted, IsCountedFail};
ghost use Rattle.trace_file.specs.Tracing.{IsTracing, trace_text};
ghost use Rattle.xif_sim.specs.Setup.{IsLawfulSetup};
ghost use Rattle.xif_sim.specs.Simulating.{meaning};
ghost use Rattle.traced_run.specs.Left.{IsAtEnd, counts_of, counted};
ghost use Rattle.traced_run.specs.Telling.{IsSmall};

use crate::counts::Counts;
use cycle_spec::CycleLog;
use run_log::push_cycle;
use std::alloc::Global;
use trace_file::TraceFile;
use xif_base::{Shelf, WriteFail};
use xif_drive::Predictor;
use xif_signals::Bus;
use xif_sim::{Setup, Simulation};

/// A run that is over, and whose waveform is written.
#[derive(Drop)]
pub struct Traced {
    /// It has the registers, the memory and the accumulators that the run leaves.
    pub simulation: Simulation,
    pub counts: Counts,
    /// The text of its log.
    pub log: String,
}

/// Runs a setup with a predictor to its end, and writes the waveform to a file while it goes on.
/// What is kept in memory grows with the text of the log alone.
pub fn run_traced<S: Shelf, P: Predictor>(
    alloc: Global,
    setup: &Setup,
    predictor: &mut P,
    shelf: &mut S,
    name: &str,
) -> Result<Traced, WriteFail>
    requires { IsLawfulSetup setup.now }
    ensures end { IfOk result (λ traced. IsAtEnd traced.simulation
        (run_of (meaning P.answer P.after) setup.now predictor.old)) }
    ensures counts { IfOk result (λ traced. traced.counts
        ≡ counts_of (run_of (meaning P.answer P.after) setup.now predictor.old)) }
    ensures log { IfOk result (λ traced. string_bytes traced.log
        ≡ text_of (run_of (meaning P.answer P.after) setup.now predictor.old).logs) }
    ensures trace { OnOk result (IsWritten (S.files shelf.old) (S.files shelf.new) name.now
        (trace_text (setup.now).params
        (run_of (meaning P.answer P.after) setup.now predictor.old).buses)) }
    ensures uncounted { OnOk result (IsUncounted S.fetch_faults S.write_faults S.faultless
        shelf.old shelf.new) }
    ensures part { OnErr result ((S.files shelf.new ≡ S.files shelf.old)
        ⊎ IsWrittenInPart (S.files shelf.old) (S.files shelf.new) name.now
        (trace_text (setup.now).params
        (run_of (meaning P.answer P.after) setup.now predictor.old).buses)) }
    ensures counted { IfErr result (IsCountedFail S.fetch_faults S.write_faults S.faultless
        shelf.old shelf.new) }
{
    let Ok(mut simulation) = Simulation::new(alloc, setup) else {
        return Err(WriteFail::NoMemory);
    };
    let mut texts = Texts {
        trace: TraceFile::start(alloc, shelf, name, &setup.params)?,
        log: String::new(alloc),
        counts: Counts::none(),
    };
    while let Some((bus, log)) = simulation.next_cycle(predictor) {
        texts.tell(shelf, name, &bus, &log)?;
    }
    texts.trace.end(alloc, shelf, name)?;
    Ok(Traced {
        simulation,
        counts: texts.counts,
        log: texts.log,
    })
}

/// What is written and counted so far.
#[derive(Drop)]
struct Texts {
    trace: TraceFile,
    log: String,
    counts: Counts,
}

impl Texts {
    /// A cycle goes into both texts and into the counts.
    fn tell<S: Shelf>(
        &mut self,
        shelf: &mut S,
        name: &str,
        bus: &Bus,
        log: &CycleLog,
    ) -> Result<(), WriteFail>
        requires room { (self.old).trace.writer.cycles < 2 ^ 60 }
        requires fits { FitsWidths (self.old).trace.writer.params bus.now }
        requires small { IsSmall (self.old).counts (2 ^ 32) }
        ensures params { (self.new).trace.writer.params ≡ (self.old).trace.writer.params }
        ensures number { OnOk result
            ((self.new).trace.writer.cycles ≡ (self.old).trace.writer.cycles + 1) }
        ensures log { OnOk result (string_bytes (self.new).log
            ≡ string_bytes (self.old).log ++ cycle_text (self.old).counts.cycles log.now) }
        ensures counts { OnOk result ((self.new).counts ≡ counted (self.old).counts log.now) }
        ensures tracing { OnOk result ((before : Option Files) → (buses : List Bus) →
            IsTracing before (S.files shelf.old) name.now (self.old).trace buses
            → IsTracing before (S.files shelf.new) name.now (self.new).trace
            (buses ++ bus.now ∷ [])) }
        ensures uncounted { OnOk result (IsUncounted S.fetch_faults S.write_faults S.faultless
            shelf.old shelf.new) }
        ensures part { OnErr result ((before : Option Files) → (buses more : List Bus) →
            IsTracing before (S.files shelf.old) name.now (self.old).trace buses
            → IsWrittenInPart before (S.files shelf.new) name.now
            (trace_text (self.old).trace.writer.params (buses ++ bus.now ∷ more))) }
        ensures counted { IfErr result (λ fail. (before : Option Files) → (buses : List Bus) →
            IsTracing before (S.files shelf.old) name.now (self.old).trace buses
            → IsCountedFail S.fetch_faults S.write_faults S.faultless shelf.old shelf.new fail) }
    {
        if push_cycle(&mut self.log, self.counts.cycles, log).is_err() {
            return Err(WriteFail::NoMemory);
        }
        self.counts = self.counts.with(log);
        self.trace.cycle(shelf, name, bus)
    }
}
