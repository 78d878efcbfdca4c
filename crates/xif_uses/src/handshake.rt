//! One channel's transactions, from cycle to cycle.
ghost use Rattle.std.specs.Prelude.{◌≡◌, None};
ghost use Rattle.xif_uses.specs.Handshake.{waiting_key, phase_of};

use std::marker::Model;
use xif_base::Key;

/// What a cycle is to the transactions of a channel.
#[derive(Clone, Copy, Debug, PartialEq, Eq)]
pub enum Phase {
    /// Valid is 0.
    Idle,
    /// A transaction starts.
    Starts,
    /// The transaction of the last cycle continues: it waited for ready, and has the same key.
    Continues,
}

/// Follows the transactions of a channel with valid and ready (CV-X-IF 1.0.0, "Handshake rules").
#[derive(Clone, Copy, Debug, PartialEq, Eq)]
pub struct Handshake {
    /// The key of the transaction that waits for ready.
    waiting: Option<Key>,
}

impl Model for Handshake {
    ghost use Rattle.std.specs.Prelude.{Option};
    ghost use Rattle.xif_base.specs.declared.params.Key.{Key};

    ghost Value = { Option Key };

    ghost view = { λ h. h.waiting };

    ghost inverse = { λ waiting. record { waiting = waiting } };
}

impl Handshake {
    /// No transaction waits.
    pub fn new() -> Handshake
        ensures { result ≡ None }
    {
        Handshake { waiting: None }
    }

    /// The key of the transaction that waits for ready.
    pub fn waiting(&self) -> Option<Key>
        ensures { result ≡ self.now }
    {
        self.waiting
    }

    /// Takes a cycle.
    pub fn step(&mut self, valid: bool, ready: bool, key: Key) -> Phase
        ensures phase { result ≡ phase_of self.old valid key }
        ensures waiting { self.new ≡ waiting_key valid ready key }
    {
        let continues = self.waiting == Some(key);
        self.waiting = if valid && !ready { Some(key) } else { None };
        if !valid {
            Phase::Idle
        } else if continues {
            Phase::Continues
        } else {
            Phase::Starts
        }
    }

    /// The waiting transaction ends: the next cycle with valid starts another one.
    pub fn cut(&mut self)
        ensures { self.new ≡ None }
    {
        self.waiting = None;
    }
}
