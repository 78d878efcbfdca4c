//! The undecided uses of one hart, in the order of their starts.
ghost use Rattle.std.specs.Prelude.{◌≡◌, ◌<◌, ◌≤◌, ◌+◌, ◌++◌, ℕ, List, [], ◌∷◌, Option, Some, None, length, IfOk, IfNone, IfSome, true, false};
ghost use Rattle.xif_session.specs.Facts.{is_covered};
ghost use Rattle.xif_uses.specs.declared.undecided.Offer.{Offer};
ghost use Rattle.xif_uses.specs.Order.{Order, Rises, Removes, offer_at, end_of};

use std::alloc::Global;
use std::collections::VecDeque;
use std::marker::Model;
use xif_base::NoMemory;

/// An undecided use of a hart.
#[derive(Clone, Copy, Debug)]
pub struct Offer {
    /// The cycle in which its issue transaction starts.
    pub start: u64,
    pub id: u16,
}

/// The undecided uses of one hart, in the order of their starts: the oldest is the first.
///
/// `new` takes all memory that it ever takes.
#[derive(Debug, Drop)]
pub struct Undecided {
    /// The session of the offers is over: they count as none, so that `clear` need not visit them.
    is_stale: bool,
    offers: VecDeque<Offer>,
}

impl Model for Undecided {
    ghost use Rattle.std.specs.Prelude.{[], if◌then◌else◌};
    ghost use Rattle.std.specs.VecDeque.{deque_capacity};
    ghost use Rattle.xif_uses.specs.Order.{Order};

    ghost Value = { Order };

    ghost view = { λ u. record {
      room = deque_capacity u.offers;
      offers = if u.is_stale then [] else u.offers.items;
    } };
}

impl Undecided {
    /// No use is undecided, and there is room for this many.
    pub fn new(alloc: Global, room: usize) -> Result<Undecided, NoMemory>
        ensures { IfOk result (λ order. order ≡ record { room = room; offers = [] }) }
    {
        Ok(Undecided {
            is_stale: false,
            offers: VecDeque::with_capacity(alloc, room)?,
        })
    }

    /// How many there are.
    pub fn len(&self) -> usize
        ensures { result ≡ length self.now.offers }
    {
        if self.is_stale { 0 } else { self.offers.len() }
    }

    /// The one with this place in the order.
    pub fn at(&self, index: usize) -> Offer
        requires { index < length self.now.offers }
        ensures { result ≡ offer_at self.now.offers index }
    {
        self.offers[index]
    }

    /// Forgets all. No offer is visited.
    pub fn clear(&mut self)
        ensures { self.new ≡ record { room = self.old.room; offers = [] } }
    {
        self.is_stale = true;
    }

    /// The use that started last is undecided.
    pub fn push(&mut self, offer: Offer)
        requires { length self.old.offers < self.old.room }
        ensures { self.new
            ≡ record { room = self.old.room; offers = self.old.offers ++ offer ∷ [] } }
    {
        if self.is_stale {
            self.offers.clear();
            self.is_stale = false;
        }
        self.offers.push_back_reserved(offer);
    }

    /// Takes out the use with this start. The shorter side of the order moves up, and that is short
    /// mostly: an offer that was retracted is near the newest, and one that the core never decides
    /// near the oldest.
    pub fn remove(&mut self, start: u64)
        requires rises { Rises self.old.offers }
        requires there { (k : ℕ) × ((k < length self.old.offers)
            × ((offer_at self.old.offers k).start ≡ start)) }
        ensures room { self.new.room ≡ self.old.room }
        ensures offers { (k : ℕ) → k < length self.old.offers →
            (offer_at self.old.offers k).start ≡ start → Removes self.old.offers self.new.offers k }
    {
        let index = self.offers.partition_point(|offer| offer.start < start);
        self.offers.remove(index);
    }

    /// Takes out the next use that a decision from this start covers: the newest for a kill, and
    /// else the oldest.
    pub fn pop_covered(&mut self, named: u64, kill: bool) -> Option<Offer>
        ensures room { self.new.room ≡ self.old.room }
        ensures taken { IfSome result (λ offer.
            (offer ≡ offer_at self.old.offers (end_of kill self.old.offers))
            × Removes self.old.offers self.new.offers (end_of kill self.old.offers)) }
        ensures covered { IfSome result (λ offer. is_covered kill named offer.start ≡ true) }
        ensures kept { IfNone result (self.new ≡ self.old) }
        ensures rest { IfNone result (0 < length self.old.offers → is_covered kill named
            (offer_at self.old.offers (end_of kill self.old.offers)).start ≡ false) }
    {
        let next = self.next(kill)?;
        if !covers(named, kill, next.start) {
            return None;
        }
        self.pop(kill);
        Some(next)
    }

    /// The newest for a kill, and else the oldest.
    fn next(&self, kill: bool) -> Option<Offer>
        ensures there { IfSome result (λ offer. (0 < length self.now.offers)
            × (offer ≡ offer_at self.now.offers (end_of kill self.now.offers))) }
        ensures none { IfNone result (self.now.offers ≡ []) }
    {
        let count = self.len();
        if count == 0 {
            return None;
        }
        Some(self.at(if kill { count - 1 } else { 0 }))
    }

    fn pop(&mut self, kill: bool)
        requires { 0 < length self.old.offers }
        ensures room { self.new.room ≡ self.old.room }
        ensures offers { Removes self.old.offers self.new.offers (end_of kill self.old.offers) }
    {
        if kill {
            self.offers.pop_back();
        } else {
            self.offers.pop_front();
        }
    }
}

/// Whether a decision from a named start is on a use with this start.
fn covers(named: u64, kill: bool, start: u64) -> bool
    ensures { result ≡ is_covered kill named start }
{
    if kill { named <= start } else { start <= named }
}
