//! The latest use of each key, each at its place.
ghost use Rattle.std.specs.Prelude.{◌≡◌, ◌<◌, ◌*◌, ◌^◌, ℕ, List, Some, None, length, IfOk, slice_index_or};
ghost use Rattle.xif_base.specs.declared.params.Params.{Params};
ghost use Rattle.xif_base.specs.Params.{IsInRange};
ghost use Rattle.xif_uses.specs.declared.places.Slot.{Slot};
ghost use Rattle.xif_uses.specs.Slots.{empty_slot};
ghost use Rattle.xif_uses.specs.Table as spec;
ghost use Rattle.xif_uses.specs.Table.{IsKey, Represents, Sets, use_of};

use crate::entry::Use;
use std::alloc::Global;
use std::marker::Model;
use xif_base::{Key, NoMemory, Params};

/// A place of the table. What it holds counts in the session in which it was written.
#[derive(Clone, Copy, Debug)]
struct Slot {
    session: u64,
    latest: Option<Use>,
}

const EMPTY: Slot = Slot {
    session: 0,
    latest: None,
};

/// The latest use of each key.
#[derive(Debug, Drop)]
pub struct Places {
    params: Params,
    /// The number of the session. The slots of other sessions are empty, so that `clear` need not
    /// visit them.
    session: u64,
    /// Hart by hart, and id by id.
    slots: Vec<Slot>,
}

impl Model for Places {
    ghost use Rattle.std.specs.Prelude.{◌≡◌, ◌≢◌, ◌==◌, ◌||◌, not, ◌≤◌, ◌*◌, ◌^◌, length, map, All};
    ghost use Rattle.xif_base.specs.Params.{IsInRange};
    ghost use Rattle.xif_uses.specs.Table.{Table};
    ghost use Rattle.xif_uses.specs.Slots.{live};

    ghost Value = { Table };

    ghost view = { λ t. record {
      params = t.params;
      uses = map (λ slot. live t.session slot.session slot.latest) t.slots.items;
    } };

    ghost invariant = { λ t. IsInRange t.params
        × ((length t.slots.items ≡ t.params.num_harts * 2 ^ t.params.id_width)
        × All (λ slot. slot.session ≤ t.session) t.slots.items) };
}

impl Places {
    /// No key has a use.
    pub fn new(alloc: Global, params: &Params) -> Result<Places, NoMemory>
        requires { IsInRange params.now }
        ensures { IfOk result (λ table. Represents table params.now (λ key. None)) }
    {
        let count = key_count(params);
        Ok(Places {
            params: *params,
            session: 0,
            slots: vec![in alloc; EMPTY; count]?,
        })
    }

    pub fn params(&self) -> &Params
        ensures params { result.now ≡ self.now.params }
        ensures in_range { IsInRange result.now }
    {
        &self.params
    }

    /// The latest use of a key, if there is one since the table was made or cleared.
    pub fn latest(&self, key: Key) -> Option<Use>
        requires { IsKey self.now.params key }
        ensures { result ≡ use_of self.now key }
    {
        let slot = &self.slots[self.place(key)];
        if slot.session == self.session {
            slot.latest
        } else {
            None
        }
    }

    /// Forgets all uses. No slot is visited, but once in 2^64 sessions.
    pub fn clear(&mut self)
        ensures { Represents self.new self.old.params (λ key. None) }
    {
        if self.session == u64::MAX {
            empty_all(&mut self.slots);
            self.session = 0;
            return;
        }
        self.session += 1;
    }

    /// A key has this use now.
    pub fn put(&mut self, key: Key, latest: Use)
        requires { IsKey self.old.params key }
        ensures { Sets self.old self.new key (Some latest) }
    {
        let place = self.place(key);
        self.slots[place] = Slot {
            session: self.session,
            latest: Some(latest),
        };
    }

    fn place(&self, key: Key) -> usize
        requires { IsKey self.now.params key }
        ensures place { result ≡ spec.place_of self.now.params key }
        ensures inside { result < length self.now.uses }
    {
        (usize::from(key.hart) << self.params.id_width) + usize::from(key.id)
    }
}

/// How many keys the interface has.
fn key_count(params: &Params) -> usize
    requires { IsInRange params.now }
    ensures { result ≡ params.now.num_harts * 2 ^ params.now.id_width }
{
    usize::from(params.num_harts) << params.id_width
}

fn empty_all(slots: &mut [Slot])
    ensures count { length slots.new ≡ length slots.old }
    ensures empty { (k : ℕ) (d : Slot) →
        k < length slots.new → slice_index_or slots.new k d ≡ empty_slot }
{
    for place in 0..slots.len() {
        slots[place] = EMPTY;
    }
}
