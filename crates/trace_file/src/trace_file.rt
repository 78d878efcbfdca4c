//! A waveform that is written to a file cycle by cycle.
ghost use Rattle.std.specs.Prelude.{◌≡◌, ◌⊎◌, ◌<◌, ◌+◌, ◌^◌, ◌++◌, ◌∷◌, [], ℕ, List, length, Option, IfOk, IfErr, OnOk, OnErr, IsErr};
ghost use Rattle.xif_base.specs.Files.{Files};
ghost use Rattle.xif_base.specs.Params.{IsInRange};
ghost use Rattle.xif_signals.specs.declared.bus.Bus.{Bus};
ghost use Rattle.xif_signals.specs.Bus.{FitsWidths};
ghost use Rattle.xif_targets.specs.Writing.{IsWritten, IsWrittenInPart, pending_limit, IsUncounted, IsCountedFail};
ghost use Rattle.trace_file.specs.Tracing.{IsTracing, trace_text};

use std::alloc::Global;
use std::marker::Model;
use vcd_text::Writer;
use xif_base::{NoMemory, Params, Shelf, WriteFail};
use xif_signals::Bus;
use xif_targets::{append_text, end_file, send_full, start_file};

/// A waveform (IEEE 1364-2005, clause 18) that is written to a file cycle by cycle. The name of the
/// file is given with each call.
#[derive(Drop)]
pub struct TraceFile {
    writer: Writer,
    pending: Vec<u8>,
}

impl Model for TraceFile {
    ghost use Rattle.trace_file.specs.Tracing.{Tracing};

    ghost Value = { Tracing };

    ghost view = { λ t. record { writer = t.writer; pending = t.pending.items } };
}

impl TraceFile {
    /// Makes the file empty, or creates it, and begins the text with its declarations.
    pub fn start<S: Shelf>(
        alloc: Global,
        shelf: &mut S,
        name: &str,
        params: &Params,
    ) -> Result<TraceFile, WriteFail>
        requires { IsInRange params.now }
        ensures tracing { IfOk result (λ t.
            IsTracing (S.files shelf.old) (S.files shelf.new) name.now t []) }
        ensures params { IfOk result (λ t. t.writer.params ≡ params.now) }
        ensures pending { IfOk result (λ t. length t.pending < pending_limit) }
        ensures uncounted { OnOk result (IsUncounted S.fetch_faults S.write_faults S.faultless
            shelf.old shelf.new) }
        ensures part { OnErr result ((buses : List Bus) →
            (S.files shelf.new ≡ S.files shelf.old)
            ⊎ IsWrittenInPart (S.files shelf.old) (S.files shelf.new) name.now
            (trace_text params.now buses)) }
        ensures counted { IfErr result (IsCountedFail S.fetch_faults S.write_faults S.faultless
            shelf.old shelf.new) }
    {
        let mut writer = Writer::new(params);
        let header = or_fail(writer.header(alloc))?;
        let mut pending = start_file(alloc, shelf, name)?;
        append_text(shelf, name, &mut pending, &header)?;
        Ok(TraceFile { writer, pending })
    }

    /// Writes the next cycle.
    pub fn cycle<S: Shelf>(&mut self, shelf: &mut S, name: &str, bus: &Bus) -> Result<(), WriteFail>
        requires room { (self.old).writer.cycles < 2 ^ 60 }
        requires fits { FitsWidths (self.old).writer.params bus.now }
        ensures params { (self.new).writer.params ≡ (self.old).writer.params }
        ensures count { OnOk result ((self.new).writer.cycles ≡ (self.old).writer.cycles + 1) }
        ensures tracing { OnOk result ((before : Option Files) → (buses : List Bus) →
            IsTracing before (S.files shelf.old) name.now self.old buses
            → IsTracing before (S.files shelf.new) name.now self.new (buses ++ bus.now ∷ [])) }
        ensures pending { OnOk result (length (self.new).pending < pending_limit) }
        ensures uncounted { OnOk result (IsUncounted S.fetch_faults S.write_faults S.faultless
            shelf.old shelf.new) }
        ensures part { OnErr result ((before : Option Files) → (buses more : List Bus) →
            IsTracing before (S.files shelf.old) name.now self.old buses
            → IsWrittenInPart before (S.files shelf.new) name.now
            (trace_text (self.old).writer.params (buses ++ bus.now ∷ more))) }
        ensures counted { IfErr result (λ fail. (before : Option Files) → (buses : List Bus) →
            IsTracing before (S.files shelf.old) name.now self.old buses
            → IsCountedFail S.fetch_faults S.write_faults S.faultless shelf.old shelf.new fail) }
    {
        if self.writer.cycle_onto(&mut self.pending, bus).is_err() {
            return Err(WriteFail::NoMemory);
        }
        send_full(shelf, name, &mut self.pending)
    }

    /// Ends the text behind the cycles so far.
    pub fn end<S: Shelf>(
        &mut self,
        alloc: Global,
        shelf: &mut S,
        name: &str,
    ) -> Result<(), WriteFail>
        ensures whole { OnOk result ((before : Option Files) → (buses : List Bus) →
            IsTracing before (S.files shelf.old) name.now self.old buses
            → IsWritten before (S.files shelf.new) name.now
            (trace_text (self.old).writer.params buses)) }
        ensures uncounted { OnOk result (IsUncounted S.fetch_faults S.write_faults S.faultless
            shelf.old shelf.new) }
        ensures part { OnErr result ((before : Option Files) → (buses : List Bus) →
            IsTracing before (S.files shelf.old) name.now self.old buses
            → IsWrittenInPart before (S.files shelf.new) name.now
            (trace_text (self.old).writer.params buses)) }
        ensures counted { IfErr result (λ fail. (before : Option Files) → (buses : List Bus) →
            IsTracing before (S.files shelf.old) name.now self.old buses
            → IsCountedFail S.fetch_faults S.write_faults S.faultless shelf.old shelf.new fail) }
    {
        let piece = or_fail(self.writer.end(alloc))?;
        append_text(shelf, name, &mut self.pending, &piece)?;
        end_file(shelf, name, &self.pending)
    }
}

/// A piece that couldn't be made, since it is out of memory, is not written.
fn or_fail(piece: Result<Vec<u8>, NoMemory>) -> Result<Vec<u8>, WriteFail>
    ensures ok { IfOk result (λ bytes. piece ≡ Ok bytes) }
    ensures err { IfErr result (λ fail. (fail ≡ WriteFail.NoMemory) × IsErr piece) }
{
    match piece {
        Ok(bytes) => Ok(bytes),
        Err(NoMemory) => Err(WriteFail::NoMemory),
    }
}
