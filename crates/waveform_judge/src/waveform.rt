//! From the bytes of a waveform to a verdict.
ghost use Rattle.std.specs.Prelude.{◌≡◌, ◌<◌, ◌≤◌, ◌+◌, ◌^◌, ◌-◌, ◌++◌, ◌∷◌, [], ℕ, List, None, Some, Ok, Err, true, false, length, IfOk, IfErr, IsErr, OnOk, OnErr};
ghost use Rattle.std.proofs.Common.{rules};
ghost use Rattle.std.proofs.lemmas.Grind.{common_steps};
ghost use Rattle.xif_base.specs.declared.params.Params.{Params};
ghost use Rattle.xif_base.specs.Params.{IsInRange};
ghost use Rattle.vcd_text.specs.declared.declaration.Variable.{Variable};
ghost use Rattle.vcd_text.specs.declared.item.Item.{Item};
ghost use Rattle.xif_sampler.specs.declared.place.Place.{Place};
ghost use Rattle.waveform_judge.specs.Judged.{judged_of, IsFail};
ghost use Rattle.waveform_judge.specs.Represented.{Waits, HasTaken, HasRead, HasReadSome, Represents, is_waiting, variables_of, drained};
ghost use Rattle.waveform_judge.specs.Taking.{Takes, takes_both};

use crate::item_judge::ItemJudge;
use crate::judged::{JudgeFail, Judged};
use std::alloc::Global;
use std::marker::Model;
use vcd_text::{FeedFail, Item, Reader};
use xif_base::{Intake, NoMemory, PIECE, Params};
use xif_sampler::SignalMap;

/// Takes the text of a waveform in pieces, and judges its samples while it is read.
///
/// Once it is out of memory, every later call answers so.
#[derive(Drop)]
pub struct WaveformJudge<'a> {
    reader: Reader,
    items: ItemJudge<'a>,
    is_out_of_memory: bool,
}

impl<'a> Model for WaveformJudge<'a> {
    ghost use Rattle.std.specs.Prelude.{◌≡◌, false};
    ghost use Rattle.waveform_judge.specs.Represented.{WaveformJudging, HasReadSome};

    ghost Value = { WaveformJudging };

    ghost view = { λ w.
        record { reader = w.reader; items = w.items; is_out_of_memory = w.is_out_of_memory } };

    ghost invariant = { λ w. (w.reader.is_closed ≡ false)
        × (w.is_out_of_memory ≡ false → ∥ HasReadSome w.reader w.items ∥₁) };
}

impl<'a> WaveformJudge<'a> {
    /// A judge that has read nothing, and finds the signals in the waveform by `map`.
    pub fn new(
        alloc: Global,
        map: &'a SignalMap,
        params: &Params,
    ) -> Result<WaveformJudge<'a>, NoMemory>
        requires { IsInRange params.now }
        ensures represents { IfOk result (λ judge. Represents judge map.now params.now []) }
        ensures size { IfOk result (λ judge. judge.reader.size ≡ 0) }
        ensures memory { IfOk result (λ judge. judge.is_out_of_memory ≡ false) }
    {
        Ok(WaveformJudge {
            reader: Reader::new(alloc),
            items: ItemJudge::new(alloc, map, params)?,
            is_out_of_memory: false,
        })
    }

    /// Takes the next piece of the text. A fault of the text is reported by `finish`, when all of
    /// the text is known. After a fault the judge goes on: it represents the longer text, whose
    /// first fault stays the same. Once it is out of memory, it answers so ever after, and `finish`
    /// too.
    pub fn feed(&mut self, piece: &[u8]) -> Result<(), NoMemory>
        requires room { self.old.reader.size + length piece.now < 2 ^ 32 }
        ensures represents { (map : List Place) (params : Params) (text : List ℕ)
            → Represents self.old map params text
            → OnOk result (Represents self.new map params (text ++ piece.now)) }
        ensures size { self.new.reader.size ≤ self.old.reader.size + length piece.now }
        ensures ok { OnOk result (self.new.is_out_of_memory ≡ false) }
        ensures out_of_memory { OnErr result (self.new.is_out_of_memory ≡ true) }
        ensures ever_after { self.old.is_out_of_memory ≡ true
            → IsErr result × (self.new ≡ self.old) }
    {
        if self.is_out_of_memory {
            return Err(NoMemory);
        }
        let fed = feed_piece(&mut self.reader, &mut self.items, piece);
        self.is_out_of_memory = fed.is_err();
        fed
    }

    /// Ends the text, and returns the answer for it.
    pub fn finish(self) -> Result<Judged, JudgeFail>
        requires { self.reader.size < 2 ^ 32 }
        ensures judged { (map : List Place) (params : Params) (text : List ℕ)
            → Represents self.entry map params text
            → IfOk result (λ judged. judged_of map params text ≡ Ok judged) }
        ensures fail { (map : List Place) (params : Params) (text : List ℕ)
            → Represents self.entry map params text
            → IfErr result (IsFail (judged_of map params text)) }
        ensures ever_after { self.entry.is_out_of_memory ≡ true
            → result ≡ Err JudgeFail.NoMemory }
    {
        if self.is_out_of_memory {
            return Err(JudgeFail::NoMemory);
        }
        let mut reader = self.reader;
        let mut items = self.items;
        end_text(&mut reader, &mut items)
    }
}

impl<'a> Intake for WaveformJudge<'a> {
    ghost takes = { Takes };

    ghost room = { λ judge. 2 ^ 32 - judge.reader.size };

    ghost takes_none = { λ judge. Prim.search (rules, common_steps) };

    ghost takes_both = { takes_both };

    fn take(&mut self, piece: &[u8]) -> Result<(), NoMemory> {
        self.feed(piece)
    }
}

/// Judges a waveform that is there as a whole.
pub fn judge_waveform(
    alloc: Global,
    text: &[u8],
    map: &SignalMap,
    params: &Params,
) -> Result<Judged, JudgeFail>
    requires params { IsInRange params.now }
    requires room { length text.now < 2 ^ 32 }
    ensures judged { IfOk result (λ judged. judged_of map.now params.now text.now ≡ Ok judged) }
    ensures fail { IfErr result (IsFail (judged_of map.now params.now text.now)) }
{
    let mut judge = WaveformJudge::new(alloc, map, params)?;
    let mut rest = text;
    while !rest.is_empty() {
        let (piece, more) = rest.split_at(PIECE.min(rest.len()));
        judge.feed(piece)?;
        rest = more;
    }
    judge.finish()
}

/// Reads a piece, and takes its items.
fn feed_piece(reader: &mut Reader, items: &mut ItemJudge<'_>, piece: &[u8]) -> Result<(), NoMemory>
    requires open { reader.old.is_closed ≡ false }
    requires room { reader.old.size + length piece.now < 2 ^ 32 }
    requires represents { ∥ HasReadSome reader.old items.old ∥₁ }
    ensures represents { (map : List Place) (params : Params) (text : List ℕ)
        → HasRead reader.old items.old map params text
        → OnOk result (HasRead reader.new items.new map params (text ++ piece.now)) }
    ensures size { reader.new.size ≤ reader.old.size + length piece.now }
    ensures open { reader.new.is_closed ≡ false }
{
    match reader.feed(piece) {
        Ok(()) => take_items(reader, items),
        Err(FeedFail::Vcd(_)) => Ok(()),
        Err(FeedFail::NoMemory) => Err(NoMemory),
    }
}

/// Reads the end of the text, and takes its last items.
fn end_text(reader: &mut Reader, items: &mut ItemJudge<'_>) -> Result<Judged, JudgeFail>
    requires open { reader.old.is_closed ≡ false }
    requires room { reader.old.size < 2 ^ 32 }
    requires represents { ∥ HasReadSome reader.old items.old ∥₁ }
    ensures judged { (map : List Place) (params : Params) (text : List ℕ)
        → HasRead reader.old items.old map params text
        → IfOk result (λ judged. judged_of map params text ≡ Ok judged) }
    ensures fail { (map : List Place) (params : Params) (text : List ℕ)
        → HasRead reader.old items.old map params text
        → IfErr result (IsFail (judged_of map params text)) }
{
    reader.close()?;
    take_items(reader, items)?;
    Ok(items.finish()?)
}

/// Takes the items that were read by now, once the signals are found.
fn take_items(reader: &mut Reader, items: &mut ItemJudge<'_>) -> Result<(), NoMemory>
    requires { items.old.judge.cycles + length reader.old.read.items < 2 ^ 64 - 1 }
    ensures waits { (map : List Place) (params : Params) → Waits items.old map params
        → variables_of reader.old ≡ None
        → OnOk result (Waits items.new map params × (reader.new ≡ reader.old)) }
    ensures first { (map : List Place) (params : Params) (variables : List Variable)
        → Waits items.old map params → variables_of reader.old ≡ Some variables
        → OnOk result (HasTaken items.new map params variables reader.old.read.items
        × (reader.new ≡ drained reader.old)) }
    ensures more { (map : List Place) (params : Params) (variables : List Variable)
        (taken : List Item) → HasTaken items.old map params variables taken
        → variables_of reader.old ≡ Some variables
        → OnOk result (HasTaken items.new map params variables (taken ++ reader.old.read.items)
        × (reader.new ≡ drained reader.old)) }
    ensures cycles { items.new.judge.cycles
        ≤ items.old.judge.cycles + length reader.old.read.items }
    ensures size { reader.new.size ≡ reader.old.size }
    ensures closed { reader.new.is_closed ≡ reader.old.is_closed }
{
    find_signals(reader, items)?;
    if !items.is_waiting() {
        take_all(reader, items);
    }
    Ok(())
}

/// Finds the signals, once the declarations were read.
fn find_signals(reader: &Reader, items: &mut ItemJudge<'_>) -> Result<(), NoMemory>
    ensures none { variables_of reader.now ≡ None → items.new ≡ items.old }
    ensures found { (map : List Place) (params : Params) (variables : List Variable)
        → Waits items.old map params → variables_of reader.now ≡ Some variables
        → OnOk result (HasTaken items.new map params variables []) }
    ensures kept { is_waiting items.old.signals ≡ false → items.new ≡ items.old }
    ensures judge { items.new.judge ≡ items.old.judge }
{
    if !items.is_waiting() {
        return Ok(());
    }
    match reader.declarations() {
        Some(declarations) => items.find(declarations),
        None => Ok(()),
    }
}

/// Takes all items that were read by now.
fn take_all(reader: &mut Reader, items: &mut ItemJudge<'_>)
    requires { items.old.judge.cycles + length reader.old.read.items < 2 ^ 64 - 1 }
    ensures taken { (map : List Place) (params : Params) (variables : List Variable)
        (taken : List Item) → HasTaken items.old map params variables taken
        → reader.old.has_failed ≡ false
        → HasTaken items.new map params variables (taken ++ reader.old.read.items) }
    ensures rest { reader.old.has_failed ≡ false → reader.new ≡ drained reader.old }
    ensures cycles { items.new.judge.cycles
        ≤ items.old.judge.cycles + length reader.old.read.items }
    ensures size { reader.new.size ≡ reader.old.size }
    ensures closed { reader.new.is_closed ≡ reader.old.is_closed }
{
    while let Some(item) = reader.take() {
        take_one(items, item);
    }
}

fn take_one(items: &mut ItemJudge<'_>, item: Item)
    requires { items.old.judge.cycles < 2 ^ 64 - 1 }
    ensures taken { (map : List Place) (params : Params) (variables : List Variable)
        (taken : List Item) → HasTaken items.old map params variables taken
        → HasTaken items.new map params variables (taken ++ item ∷ []) }
    ensures cycles { items.new.judge.cycles ≤ items.old.judge.cycles + 1 }
{
    items.take(&item);
}
