//! The issue side of the judge.
ghost use Rattle.std.specs.Prelude.{◌≡◌, ◌+◌, None, OnOk};
ghost use Rattle.xif_base.specs.declared.params.Params.{Params};
ghost use Rattle.xif_base.specs.Params.{IsInRange};
ghost use Rattle.xif_signals.specs.Bus.{FitsWidths};
ghost use Rattle.xif_session.specs.Facts as session;
ghost use Rattle.xif_session.specs.Facts.{Past};
ghost use Rattle.xif_session.specs.Rules.{HoldsH1};
ghost use Rattle.xif_session.specs.Tests.{answer_of, first_fault_in};
ghost use Rattle.issue_channel.specs.Following.{Keeps, Follows, HasIssued, IsReady, OffersNewest, side_rules, waiting_register};
ghost use Rattle.issue_channel.specs.Steps.{issue_phase};

use crate::changes::{note_operands, note_response, note_retraction, note_start};
use crate::issue_rules::check_issue;
use crate::register_rules::{check_operands, check_register};
use std::marker::Model;
use xif_base::{Key, Params};
use xif_session::idle_bus;
use xif_signals::{Bus, Channel};
use xif_uses::{Fault, Handshake, Phase, UseTable};

/// Follows the issue channel and the register channel, and judges their rules.
#[derive(Clone, Copy, Debug, PartialEq, Eq)]
pub struct IssueSide {
    params: Params,
    issue: Handshake,
    register: Handshake,
    /// The bus of the last cycle.
    last: Bus,
}

impl Model for IssueSide {
    ghost use Rattle.xif_base.specs.Params.{IsInRange};
    ghost use Rattle.issue_channel.specs.Following.{Following};

    ghost Value = { Following };

    ghost view = { λ s.
        record { params = s.params; issue = s.issue; register = s.register; last = s.last } };

    ghost inverse = { λ f.
        record { params = f.params; issue = f.issue; register = f.register; last = f.last } };

    ghost invariant = { λ s. IsInRange s.params };
}

impl IssueSide {
    /// A side before the first cycle of a session.
    pub fn new(params: &Params) -> IssueSide
        requires { IsInRange params.now }
        ensures { Keeps result params.now session.idle_bus None }
    {
        IssueSide {
            params: *params,
            issue: Handshake::new(),
            register: Handshake::new(),
            last: idle_bus(),
        }
    }

    /// Starts a new session.
    pub fn reset(&mut self)
        ensures { Keeps self.new self.old.params session.idle_bus None }
    {
        self.issue = Handshake::new();
        self.register = Handshake::new();
        self.last = idle_bus();
    }

    /// Takes a cycle of the session: judges its issue and register rules, and brings the table up
    /// to the cycle's starts, responses and operands. `cycle` counts from the first one of the
    /// session. After an error the side and the table are of no use until `reset` and `clear`.
    pub fn step(&mut self, uses: &mut UseTable, cycle: u64, bus: &Bus) -> Result<(), Fault>
        requires widths { FitsWidths uses.old.params bus.now }
        requires harts { HoldsH1 uses.old.params bus.now }
        requires ready { IsReady self.old uses.old cycle }
        ensures fault { (params : Params) (p : Past) → Follows self.old uses.old params p
            → p.cycle ≡ cycle
            → result ≡ answer_of (first_fault_in side_rules params p bus.now) }
        ensures follows { (params : Params) (p : Past) → Follows self.old uses.old params p
            → p.cycle ≡ cycle
            → OnOk result (HasIssued self.new uses.new params p bus.now) }
        ensures ready { OnOk result (IsReady self.new uses.new (cycle + 1)) }
        ensures newest { OnOk result (OffersNewest uses.new bus.now) }
        ensures params { uses.new.params ≡ uses.old.params }
    {
        let waiting = self.issue.waiting();
        let key = bus.key(Channel::Issue);
        let phase = self.issue.step(bus.issue_valid, bus.issue_ready, key);
        check_issue(phase, &self.params, uses, &self.last, bus)?;
        note_retraction(uses, waiting, phase);
        note_start(uses, phase, cycle, bus);
        let continues = continues_register(&mut self.register, phase, bus);
        check_register(continues, &self.params, uses, &self.last, bus)?;
        note_response(uses, bus);
        note_operands(uses, bus);
        self.last = *bus;
        check_operands(uses, bus)
    }

    /// The key of the issue transaction that the next cycle may continue.
    pub fn waiting(&self) -> Option<Key>
        ensures { result ≡ self.now.issue }
    {
        self.issue.waiting()
    }

    /// The use of the open issue transaction was killed in this cycle, so that the next cycle with
    /// issue_valid starts a new use.
    pub fn cut(&mut self)
        ensures { self.new ≡ record self.old { issue = None } }
    {
        self.issue.cut();
    }
}

/// Whether the register transaction continues in a cycle: for the same key, and the same use.
fn continues_register(register: &mut Handshake, issue: Phase, bus: &Bus) -> bool
    ensures waiting { register.new ≡ waiting_register bus.now }
    ensures test { (p : Past) → register.old ≡ waiting_register p.last
        → issue ≡ issue_phase p bus.now
        → result ≡ session.register_continues p bus.now }
{
    let key = bus.key(Channel::Register);
    let phase = register.step(bus.register_valid, bus.register_ready, key);
    phase == Phase::Continues && !starts_under(key, issue, bus)
}

/// Whether a use of a key starts in a cycle.
fn starts_under(key: Key, issue: Phase, bus: &Bus) -> bool
    ensures { (p : Past) → issue ≡ issue_phase p bus.now
        → result ≡ session.starts_key p bus.now key }
{
    issue == Phase::Starts && bus.key(Channel::Issue) == key
}
