//! Samples the items of a waveform, and judges the samples.
ghost use Rattle.std.specs.Prelude.{◌≡◌, ◌<◌, ◌≤◌, ◌+◌, ◌-◌, ◌^◌, ◌++◌, ◌∷◌, [], List, IfOk, OnOk};
ghost use Rattle.std.specs.Option.{option_to_list};
ghost use Rattle.xif_base.specs.declared.params.Params.{Params};
ghost use Rattle.xif_base.specs.Params.{IsInRange};
ghost use Rattle.xif_signals.specs.declared.sample.Quad.{Quad};
ghost use Rattle.vcd_text.specs.declared.declaration.Variable.{Variable};
ghost use Rattle.vcd_text.specs.declared.item.Item.{Item};
ghost use Rattle.xif_sampler.specs.declared.place.Place.{Place};
ghost use Rattle.xif_judge.specs.Judging.{Represents};
ghost use Rattle.waveform_judge.specs.Judged.{judged_in};
ghost use Rattle.waveform_judge.specs.Represented.{IsOf, Waits, HasTaken, is_waiting};

use crate::judged::Judged;
use crate::signals::Signals;
use std::alloc::Global;
use std::marker::Model;
use vcd_text::{Declarations, Item};
use xif_base::{NoMemory, Params};
use xif_judge::Judge;
use xif_sampler::{MapFail, MapFault, Sampler, SignalMap};
use xif_signals::Sample;

/// Takes the items of a waveform in order, and judges their samples.
#[derive(Drop)]
pub struct ItemJudge<'a> {
    alloc: Global,
    map: &'a SignalMap,
    params: Params,
    signals: Signals,
    judge: Judge,
}

impl<'a> Model for ItemJudge<'a> {
    ghost use Rattle.xif_base.specs.Params.{IsInRange};
    ghost use Rattle.waveform_judge.specs.Represented.{ItemJudging};

    ghost Value = { ItemJudging };

    ghost view = { λ j.
        record { map = j.map.now; params = j.params; signals = j.signals; judge = j.judge } };

    ghost invariant = { λ j. IsInRange j.params };
}

impl<'a> ItemJudge<'a> {
    /// A judge that waits for the declarations.
    pub fn new(
        alloc: Global,
        map: &'a SignalMap,
        params: &Params,
    ) -> Result<ItemJudge<'a>, NoMemory>
        requires { IsInRange params.now }
        ensures { IfOk result (λ judge. Waits judge map.now params.now) }
    {
        Ok(ItemJudge {
            alloc,
            map,
            params: *params,
            signals: Signals::Awaited,
            judge: Judge::new(alloc, params)?,
        })
    }

    /// Whether the signals are still to be found.
    pub fn is_waiting(&self) -> bool
        ensures { result ≡ is_waiting self.now.signals }
    {
        matches!(self.signals, Signals::Awaited)
    }

    /// Finds the signals among the variables of the waveform.
    pub fn find(&mut self, declarations: &Declarations) -> Result<(), NoMemory>
        ensures found { (map : List Place) (params : Params) → Waits self.old map params
            → OnOk result (HasTaken self.new map params declarations.now []) }
        ensures judge { self.new.judge ≡ self.old.judge }
    {
        self.signals = match Sampler::new(self.alloc, self.map, declarations, &self.params) {
            Ok(sampler) => Signals::Found(sampler),
            Err(MapFail::Map(fault)) => Signals::Lost(fault),
            Err(MapFail::NoMemory) => return Err(NoMemory),
        };
        Ok(())
    }

    /// Takes the next item of the waveform.
    pub fn take(&mut self, item: &Item)
        requires { self.old.judge.cycles < 2 ^ 64 - 1 }
        ensures taken { (map : List Place) (params : Params) (variables : List Variable)
            (items : List Item) → HasTaken self.old map params variables items
            → HasTaken self.new map params variables (items ++ item.now ∷ []) }
        ensures cycles { self.new.judge.cycles ≤ self.old.judge.cycles + 1 }
    {
        if let Signals::Found(sampler) = &mut self.signals {
            let sample = sampler.take(item);
            self.judge_sample(sample);
        }
    }

    /// Ends the waveform.
    pub fn finish(&mut self) -> Result<Judged, MapFault>
        requires { self.old.judge.cycles < 2 ^ 64 - 1 }
        ensures { (map : List Place) (params : Params) (variables : List Variable)
            (items : List Item) → HasTaken self.old map params variables items
            → result ≡ judged_in map params variables items }
    {
        let sample = match &mut self.signals {
            Signals::Awaited => None,
            Signals::Found(sampler) => sampler.finish(),
            Signals::Lost(fault) => return Err(*fault),
        };
        self.judge_sample(sample);
        Ok(Judged {
            cycles: self.judge.cycles(),
            verdict: self.judge.verdict(),
        })
    }

    /// Judges a sample, if there is one.
    // Most items end no sample: inlined, none is moved for them.
    #[inline(always)]
    fn judge_sample(&mut self, sample: Option<Sample>)
        requires { self.old.judge.cycles < 2 ^ 64 - 1 }
        ensures judged { (params : Params) (history : List (List Quad))
            → Represents self.old.judge params history
            → Represents self.new.judge params (option_to_list sample ++ history) }
        ensures cycles { self.new.judge.cycles ≤ self.old.judge.cycles + 1 }
        ensures same { IsOf self.new self.old.map self.old.params }
        ensures signals { self.new.signals ≡ self.old.signals }
    {
        if let Some(sample) = sample {
            // The judge keeps the verdict.
            let _ = self.judge.step(&sample);
        }
    }
}
