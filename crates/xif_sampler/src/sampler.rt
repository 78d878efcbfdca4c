//! The sampler, which takes the items of a waveform in order.
ghost use Rattle.std.specs.Prelude.{◌≡◌, List, [], ◌∷◌, drop, Ok, Err, IfOk, IsOkAnd, IfErr};
ghost use Rattle.xif_base.specs.Params.{IsInRange};
ghost use Rattle.vcd_text.specs.declared.item.Item.{Item};
ghost use Rattle.vcd_text.specs.declared.item.Item.TheVariants.{Time, Change};
ghost use Rattle.xif_sampler.specs.declared.source.Source.{Source};
ghost use Rattle.xif_sampler.specs.declared.fault.MapFault.{MapFault};
ghost use Rattle.xif_sampler.specs.Places.{sources_of};
ghost use Rattle.xif_sampler.specs.Samples.{is_number, sample_at, sample_by, answer_to};
ghost use Rattle.xif_sampler.specs.Keeping.{Represents};
ghost use Rattle.xif_sampler.specs.Steps.{sample_between};

use crate::fault::MapFail;
use crate::find::find_sources;
use crate::keeping::{change_quads, find_readers, first_quads, readers_of};
use crate::place::SignalMap;
use crate::source::{Readers, Source};
use std::alloc::Global;
use std::marker::Model;
use vcd_text::{Declarations, Digits, Item};
use xif_base::Params;
use xif_signals::{Quad, Sample};

/// Takes the items of a waveform in order, and returns the sample of each instant in which the
/// clock rises: the values of the signals from before it.
///
/// An instant lasts from a time to a greater one, or to the end; what comes before the first time
/// is at time 0. Times are in units of the waveform's timescale. All values are unknown at first. A
/// value that is shorter than its variable is extended on the left (IEEE 1364-2005, 18.2.2).
#[derive(Debug, Drop)]
pub struct Sampler {
    sources: [Source; 29],
    /// The readers of each code.
    readers: Vec<Readers>,
    /// The time of this instant.
    time: u64,
    /// The values of the signals before this instant.
    was: [Quad; 29],
    now: [Quad; 29],
}

impl Model for Sampler {
    ghost use Rattle.xif_sampler.specs.Keeping.{Sampling};
    ghost use Rattle.xif_sampler.specs.Steps.{AreWithin, AreReaders};

    ghost Value = { Sampling };

    ghost view = { λ s. record { sources = s.sources; time = s.time; was = s.was; now = s.now } };

    ghost invariant = { λ s. AreWithin 64 s.sources × AreReaders s.sources s.readers.items };
}

impl Sampler {
    /// A sampler of the signals at the places of a map, among the variables that a waveform
    /// declares. The fault is that of the first signal in the order of the table that has one; a
    /// signal that has no bits by the parameters has none, whatever its place is. This is the only
    /// call that allocates.
    pub fn new(
        alloc: Global,
        map: &SignalMap,
        declarations: &Declarations,
        params: &Params,
    ) -> Result<Sampler, MapFail>
        requires { IsInRange params.now }
        ensures ok { IfOk result (λ sampler.
            IsOkAnd (sources_of map.now declarations.now params.now)
            (λ sources. Represents sampler sources [])) }
        ensures fault { IfErr result (λ fail. (fault : MapFault) → fail ≡ MapFail.Map fault →
            sources_of map.now declarations.now params.now ≡ Err fault) }
    {
        let sources = find_sources(alloc, map, declarations.as_slice(), params)?;
        let readers = readers_of(alloc, &sources)?;
        let quads = first_quads(&sources);
        Ok(Sampler {
            sources,
            readers,
            time: 0,
            was: quads,
            now: quads,
        })
    }

    /// Takes a change of the variables of a code. It changes no sample if no signal takes bits of
    /// the code.
    pub fn change(&mut self, code: u32, digits: &Digits)
        ensures { (sources : List Source) (history : List Item)
            → Represents self.old sources history
            → Represents self.new sources (Change code digits.now ∷ history) }
    {
        let readers = find_readers(&self.readers, code);
        change_quads(&mut self.now, &self.sources, readers, code, digits);
    }

    /// Takes a time. One that is greater than the last ends the instant, and returns its sample if
    /// the clock rises in it.
    pub fn time(&mut self, t: u64) -> Option<Sample>
        ensures represents { (sources : List Source) (history : List Item)
            → Represents self.old sources history
            → Represents self.new sources (Time t ∷ history) }
        ensures sample { (sources : List Source) (history : List Item)
            → Represents self.old sources history → result ≡ sample_by sources history t }
    {
        if t <= self.time {
            return None;
        }
        let sample = sample_of(&self.was, &self.now);
        self.time = t;
        self.was = self.now;
        sample
    }

    /// Takes an item, as `time` or `change` does.
    pub fn take(&mut self, item: &Item) -> Option<Sample>
        ensures represents { (sources : List Source) (history : List Item)
            → Represents self.old sources history
            → Represents self.new sources (item.now ∷ history) }
        ensures sample { (sources : List Source) (history : List Item)
            → Represents self.old sources history → result ≡ answer_to sources history item.now }
    {
        match item {
            Item::Time(t) => self.time(*t),
            Item::Change { code, digits } => {
                self.change(*code, digits);
                None
            }
        }
    }

    /// Ends the last instant, after the last item, and returns its sample if the clock rises in it.
    pub fn finish(&mut self) -> Option<Sample>
        ensures sample { (sources : List Source) (history : List Item)
            → Represents self.old sources history → result ≡ sample_at sources history }
        ensures same { self.new ≡ self.old }
    {
        sample_of(&self.was, &self.now)
    }
}

/// The sample of an instant, by the values before it and after it.
fn sample_of(was: &[Quad; 29], now: &[Quad; 29]) -> Option<Sample>
    ensures { result ≡ sample_between was.now now.now }
{
    if is_zero_or_one(was[0], 0) && is_zero_or_one(now[0], 1) {
        Some(sample_from(was))
    } else {
        None
    }
}

fn is_zero_or_one(quad: Quad, number: u64) -> bool
    ensures { result ≡ is_number number quad }
{
    quad.value == number && quad.unknown == 0
}

/// The values of all signals but the clock.
fn sample_from(quads: &[Quad; 29]) -> Sample
    ensures { result ≡ drop 1 quads.now }
{
    let mut signals = [quads[0]; 28];
    signals.copy_from_slice(&quads[1..]);
    Sample::from_quads(signals)
}
