//! The latest use of each key, and the order of those that are undecided.
ghost use Rattle.std.specs.Prelude.{◌≡◌, ◌≢◌, ◌==◌, ◌||◌, not, ◌<◌, ◌≤◌, ◌^◌, ℕ, [], Option, Some, None, is_some, true, false, length, IfOk, IfSome, IsSomeAnd};
ghost use Rattle.std.specs.Option.{option_map, option_map_or};
ghost use Rattle.xif_base.specs.declared.params.Params.{Params};
ghost use Rattle.xif_base.specs.Params.{IsInRange};
ghost use Rattle.xif_session.specs.Facts as session;
ghost use Rattle.xif_session.specs.Facts.{Facts};
ghost use Rattle.xif_session.specs.Rules.{MayFinish};
ghost use Rattle.xif_uses.specs.Order.{InOrder, IsOrder, start_of, with_start, order_at, decided_as};
ghost use Rattle.xif_uses.specs.Table as spec;
ghost use Rattle.xif_uses.specs.Table.{IsKey, Represents, Sets, Decides, StartsBefore, use_of};

use crate::entry::Use;
use crate::places::Places;
use crate::undecided::{Offer, Undecided};
use std::alloc::Global;
use std::marker::Model;
use xif_base::{Key, NoMemory, Params, ReadFlags};
use xif_session::{Decision, Response};

/// What a commit does to the use that it names.
#[derive(Clone, Copy, Debug, PartialEq, Eq)]
pub enum Decided {
    /// The use was undecided, and is decided now.
    Taken,
    /// The same was decided before.
    Repeat,
    /// The use was killed before.
    WasKilled,
    /// The use was released before.
    WasReleased,
    /// There is no use of the key.
    NoUse,
    /// In profile 2: an older use of the hart was answered and is undecided.
    OutOfOrder,
}

/// The latest use of each key.
///
/// `new` takes all memory that the table ever takes: a place for each key of the interface, and
/// for each hart an order of as many undecided uses as it has ids.
#[derive(Debug, Drop)]
pub struct UseTable {
    places: Places,
    /// Hart by hart: a decision visits only the uses that it decides.
    undecided: Vec<Undecided>,
}

impl Model for UseTable {
    ghost use Rattle.xif_uses.specs.Table.{Table};
    ghost use Rattle.xif_uses.specs.Order.{AreOrders};

    ghost Value = { Table };

    ghost view = { λ t. t.places };

    ghost invariant = { λ t. AreOrders t.places t.undecided.items };
}

impl UseTable {
    /// A table without uses.
    pub fn new(alloc: Global, params: &Params) -> Result<UseTable, NoMemory>
        requires { IsInRange params.now }
        ensures { IfOk result (λ table. Represents table params.now (λ key. None)) }
    {
        Ok(UseTable {
            places: Places::new(alloc, params)?,
            undecided: new_orders(alloc, params.num_harts, id_count(params))?,
        })
    }

    /// The latest use of a key, if there is one since the table was made or cleared.
    pub fn latest(&self, key: Key) -> Option<Use>
        requires { IsKey self.now.params key }
        ensures { result ≡ use_of self.now key }
    {
        self.places.latest(key)
    }

    /// Forgets all uses: a new session begins. No use is visited, but once in 2^64 sessions.
    pub fn clear(&mut self)
        ensures { Represents self.new self.old.params (λ key. None) }
    {
        self.places.clear();
        clear_all(&mut self.undecided);
    }

    /// A use starts: an instruction is offered under a key in a cycle.
    pub fn start(&mut self, key: Key, cycle: u64, instr: u32)
        requires key { IsKey self.old.params key }
        requires later { StartsBefore self.old cycle }
        ensures latest { Sets self.old self.new key (Some (spec.new_use cycle instr)) }
        ensures facts { (params : Params) (facts : Facts) → Represents self.old params facts
            → Represents self.new params
            (session.started (session.same_key key) cycle instr facts) }
    {
        self.put_newest(
            key,
            Use {
                start: cycle,
                instr,
                ongoing: true,
                response: None,
                operands: None,
                decision: Decision::Undecided,
                finished: false,
            },
        );
    }

    /// The issue transaction of the latest use of a key ends without an answer.
    pub fn end_retracted(&mut self, key: Key)
        requires key { IsKey self.old.params key }
        requires ongoing { IsSomeAnd (use_of self.old key) (λ latest. latest.ongoing ≡ true) }
        ensures latest { Sets self.old self.new key
            (option_map spec.retracted (use_of self.old key)) }
        ensures facts { (params : Params) (facts : Facts) → Represents self.old params facts
            → Represents self.new params facts }
    {
        if let Some(latest) = self.latest(key) {
            self.put(
                key,
                Use {
                    ongoing: false,
                    ..latest
                },
            );
        }
    }

    /// The latest use of a key is answered, at its issue handshake.
    pub fn response(&mut self, key: Key, response: Response)
        requires key { IsKey self.old.params key }
        requires ongoing { IsSomeAnd (use_of self.old key) (λ latest. latest.ongoing ≡ true) }
        ensures latest { Sets self.old self.new key
            (option_map (spec.with_answer response) (use_of self.old key)) }
        ensures facts { (params : Params) (facts : Facts) → Represents self.old params facts
            → Represents self.new params (session.answered (session.same_key key) response facts) }
    {
        if let Some(latest) = self.latest(key) {
            self.put(
                key,
                Use {
                    ongoing: false,
                    response: Some(response),
                    ..latest
                },
            );
        }
    }

    /// The latest use of a key gets its operands, at its register handshake.
    pub fn operands(&mut self, key: Key, flags: ReadFlags)
        requires key { IsKey self.old.params key }
        requires waiting { IsSomeAnd (use_of self.old key) (λ latest. latest.operands ≡ None) }
        ensures latest { Sets self.old self.new key
            (option_map (spec.with_flags flags) (use_of self.old key)) }
        ensures facts { (params : Params) (facts : Facts) → Represents self.old params facts
            → Represents self.new params (session.given (session.same_key key) flags.0 facts) }
    {
        if let Some(latest) = self.latest(key) {
            self.put(
                key,
                Use {
                    operands: Some(flags),
                    ..latest
                },
            );
        }
    }

    /// The latest use of a key ends: its result is taken.
    pub fn finish(&mut self, key: Key)
        requires key { IsKey self.old.params key }
        requires may { IsSomeAnd (use_of self.old key) (λ latest. MayFinish (spec.fact_of latest)) }
        ensures latest { Sets self.old self.new key
            (option_map spec.with_end (use_of self.old key)) }
        ensures facts { (params : Params) (facts : Facts) → Represents self.old params facts
            → Represents self.new params (session.ended (session.same_key key) facts) }
    {
        if let Some(latest) = self.latest(key) {
            self.put(
                key,
                Use {
                    finished: true,
                    ..latest
                },
            );
        }
    }

    /// Whether the latest use of a key is in flight, so that the key may not be used again.
    pub fn in_flight(&self, key: Key) -> bool
        requires { IsKey self.now.params key }
        ensures { result
            ≡ session.is_in_flight self.now.params.profile (spec.facts_in self.now key) }
    {
        match self.latest(key) {
            None => false,
            Some(latest) => match latest.response {
                None => false,
                Some(response) if response.accept => {
                    !latest.finished && latest.decision != Decision::Killed
                }
                Some(_) => self.profile() == 2 && latest.decision == Decision::Undecided,
            },
        }
    }

    /// A commit names a key. Where its latest use is undecided, a release decides it and the
    /// undecided uses of its hart that started earlier, and a kill decides it and those that
    /// started later (CV-X-IF 1.0.0, "Commit interface"). Nothing changes otherwise.
    pub fn decide(&mut self, key: Key, kill: bool) -> Decided
        requires { IsKey self.old.params key }
        ensures answer { result ≡ spec.answer_of self.old key kill }
        ensures taken { result ≡ Decided.Taken →
            spec.DecidesFrom self.old self.new key kill (use_of self.old key) }
        ensures kept { result ≢ Decided.Taken → self.new ≡ self.old }
        ensures facts { (params : Params) (facts : Facts) → Represents self.old params facts
            → result ≢ Decided.OutOfOrder → Represents self.new params
            (session.decided_from (session.undecided_start (facts key)) key.hart kill facts) }
    {
        let Some(named) = self.latest(key) else {
            return Decided::NoUse;
        };
        match named.decision {
            Decision::Released => return if kill {
                Decided::WasReleased
            } else {
                Decided::Repeat
            },
            Decision::Killed => return if kill {
                Decided::Repeat
            } else {
                Decided::WasKilled
            },
            Decision::Undecided => {}
        }
        if kill && !self.is_in_order(key.hart, named.start) {
            return Decided::OutOfOrder;
        }
        self.decide_hart(key.hart, named.start, kill);
        Decided::Taken
    }

    /// Whether a kill of a use of a hart with this start is in order.
    fn is_in_order(&self, hart: u8, start: u64) -> bool
        requires { hart < self.now.params.num_harts }
        ensures { result
            ≡ (not (self.now.params.profile == 2) || spec.is_first_pending self.now hart start) }
    {
        self.profile() != 2 || self.is_first_pending(hart, start)
    }

    fn is_first_pending(&self, hart: u8, start: u64) -> bool
        requires { hart < self.now.params.num_harts }
        ensures { result ≡ spec.is_first_pending self.now hart start }
    {
        none_answered_before(
            &self.places,
            &self.undecided[usize::from(hart)],
            hart,
            start,
        )
    }

    fn decide_hart(&mut self, hart: u8, named: u64, kill: bool)
        requires { hart < self.old.params.num_harts }
        ensures { Decides self.old self.new hart named kill }
    {
        let order = &mut self.undecided[usize::from(hart)];
        decide_covered(&mut self.places, order, hart, named, kill);
    }

    fn profile(&self) -> u8
        ensures { result ≡ self.now.params.profile }
    {
        self.places.params().profile
    }

    /// A key has another use, which is the newest.
    fn put_newest(&mut self, key: Key, newest: Use)
        requires key { IsKey self.old.params key }
        requires later { StartsBefore self.old newest.start }
        requires undecided { newest.decision ≡ Decision.Undecided }
        ensures { Sets self.old self.new key (Some newest) }
    {
        let order = &mut self.undecided[usize::from(key.hart)];
        start_over(order, &self.places, key, newest.start);
        self.places.put(key, newest);
    }

    /// The use of a key changes, but neither its start nor its decision.
    fn put(&mut self, key: Key, latest: Use)
        requires key { IsKey self.old.params key }
        requires same { session.undecided_start (spec.facts_in self.old key)
            ≡ session.undecided_start (Some (spec.fact_of latest)) }
        ensures { Sets self.old self.new key (Some latest) }
    {
        self.places.put(key, latest);
    }
}

/// How many ids a hart has.
fn id_count(params: &Params) -> usize
    requires { IsInRange params.now }
    ensures { result ≡ 2 ^ params.now.id_width }
{
    1 << params.id_width
}

fn new_orders(alloc: Global, harts: u8, ids: usize) -> Result<Vec<Undecided>, NoMemory>
    ensures count { IfOk result (λ orders. length orders.items ≡ harts) }
    ensures empty { IfOk result (λ orders. (k : ℕ) → k < length orders.items
        → order_at orders.items k ≡ record { room = ids; offers = [] }) }
{
    let mut orders = Vec::with_capacity(alloc, usize::from(harts))?;
    for _ in 0..harts {
        orders.push(Undecided::new(alloc, ids)?)?;
    }
    Ok(orders)
}

fn clear_all(orders: &mut [Undecided])
    ensures count { length orders.new ≡ length orders.old }
    ensures empty { (k : ℕ) → k < length orders.new
        → order_at orders.new k ≡ record (order_at orders.old k) { offers = [] } }
{
    for hart in 0..orders.len() {
        orders[hart].clear();
    }
}

/// Whether no undecided use of a hart that started before this cycle was answered.
fn none_answered_before(places: &Places, order: &Undecided, hart: u8, start: u64) -> bool
    requires hart { hart < places.now.params.num_harts }
    requires order { IsOrder places.now hart order.now.offers }
    ensures { result ≡ spec.is_first_pending places.now hart start }
{
    for index in 0..order.len() {
        let offer = order.at(index);
        if start <= offer.start {
            return true;
        }
        if is_answered(places.latest(Key { hart, id: offer.id })) {
            return false;
        }
    }
    true
}

fn is_answered(latest: Option<Use>) -> bool
    ensures { result ≡ option_map_or (λ entry. is_some entry.response) latest false }
{
    match latest {
        None => false,
        Some(entry) => entry.response.is_some(),
    }
}

/// Decides the undecided uses of a hart that started from this cycle on, or up to it.
fn decide_covered(places: &mut Places, order: &mut Undecided, hart: u8, named: u64, kill: bool)
    requires hart { hart < places.old.params.num_harts }
    requires order { IsOrder places.old hart order.old.offers }
    ensures decided { Decides places.old places.new hart named kill }
    ensures room { order.new.room ≡ order.old.room }
    ensures order { IsOrder places.new hart order.new.offers }
{
    while let Some(offer) = order.pop_covered(named, kill) {
        decide_one(places, Key { hart, id: offer.id }, kill);
    }
}

fn decide_one(places: &mut Places, key: Key, kill: bool)
    requires { IsKey places.old.params key }
    ensures { Sets places.old places.new key
        (option_map (decided_as kill) (use_of places.old key)) }
{
    if let Some(latest) = places.latest(key) {
        places.put(key, with_decision(latest, kill));
    }
}

fn with_decision(latest: Use, kill: bool) -> Use
    ensures { result ≡ decided_as kill latest }
{
    let decision = if kill {
        Decision::Killed
    } else {
        Decision::Released
    };
    Use {
        ongoing: latest.ongoing && !kill,
        decision,
        ..latest
    }
}

/// The key is to have a use that starts in this cycle, the newest one.
fn start_over(order: &mut Undecided, places: &Places, key: Key, start: u64)
    requires key { IsKey places.now.params key }
    requires later { StartsBefore places.now start }
    requires order { IsOrder places.now key.hart order.old.offers }
    requires room { 2 ^ places.now.params.id_width ≤ order.old.room }
    ensures room { order.new.room ≡ order.old.room }
    ensures order { InOrder (2 ^ places.now.params.id_width)
        (with_start key.id (Some start) (start_of places.now key.hart)) order.new.offers }
{
    withdraw(order, places, key);
    order.push(Offer { start, id: key.id });
}

/// The latest use of a key is undecided no more.
fn withdraw(order: &mut Undecided, places: &Places, key: Key)
    requires key { IsKey places.now.params key }
    requires order { IsOrder places.now key.hart order.old.offers }
    ensures room { order.new.room ≡ order.old.room }
    ensures order { InOrder (2 ^ places.now.params.id_width)
        (with_start key.id None (start_of places.now key.hart)) order.new.offers }
{
    if let Some(latest) = places.latest(key)
        && latest.decision == Decision::Undecided
    {
        order.remove(latest.start);
    }
}
