//! The result side of the judge.
ghost use Rattle.std.specs.Prelude.{◌≡◌, if◌then◌else◌, false, Ok, Err, IsTrue, IsSomeAnd, OnOk};
ghost use Rattle.std.specs.Option.{option_map};
ghost use Rattle.xif_base.specs.declared.params.Params.{Params};
ghost use Rattle.xif_session.specs.Facts as session;
ghost use Rattle.xif_session.specs.Facts.{Facts, Past, result_key, is_taken, now, past_after};
ghost use Rattle.xif_signals.specs.declared.rule.Channel.TheVariants.{Result as ResultChannel};
ghost use Rattle.xif_session.specs.Rules.{MayFinish};
ghost use Rattle.xif_session.specs.Tests.{answer_of, first_fault_in, fault_on, result_rules};
ghost use Rattle.xif_uses.specs.Table.{IsKey, Represents, Sets, use_of, fact_of, with_end};

use crate::rules::{keeps_r1, keeps_r2, keeps_r3, keeps_r4, keeps_r5, keeps_r6};
use std::marker::Model;
use xif_session::idle_bus;
use xif_signals::{Bus, Channel, Rule};
use xif_uses::{Fault, UseTable};

/// Judges the rules of the result channel.
#[derive(Clone, Copy, Debug, PartialEq, Eq)]
pub struct ResultSide {
    /// The bus of the last cycle.
    last: Bus,
}

impl Model for ResultSide {
    ghost use Rattle.xif_signals.specs.declared.bus.Bus.{Bus};

    ghost Value = { Bus };

    ghost view = { λ side. side.last };

    ghost inverse = { λ last. record { last = last } };
}

impl ResultSide {
    /// A side before the first cycle of a session.
    pub fn new() -> ResultSide
        ensures { result ≡ session.idle_bus }
    {
        ResultSide { last: idle_bus() }
    }

    /// Starts a new session.
    pub fn reset(&mut self)
        ensures { self.new ≡ session.idle_bus }
    {
        self.last = idle_bus();
    }

    /// Takes the result of a cycle: judges its rules, and ends the use whose result is taken.
    pub fn step(&mut self, uses: &mut UseTable, bus: &Bus) -> Result<(), Fault>
        requires key { IsTrue bus.now.result_valid → IsKey uses.old.params (result_key bus.now) }
        ensures fault { (params : Params) (p : Past) → self.old ≡ p.last
            → Represents uses.old params (now p bus.now)
            → result ≡ answer_of (first_fault_in result_rules params p bus.now) }
        ensures facts { (params : Params) (p : Past) → Represents uses.old params (now p bus.now)
            → OnOk result (Represents uses.new params (past_after p bus.now).facts) }
        ensures last { OnOk result (self.new ≡ bus.now) }
        ensures taken { OnOk result (IsTrue (is_taken bus.now) → Sets uses.old uses.new
            (result_key bus.now) (option_map with_end (use_of uses.old (result_key bus.now)))) }
        ensures kept { is_taken bus.now ≡ false → OnOk result (uses.new ≡ uses.old) }
        ensures params { uses.new.params ≡ uses.old.params }
    {
        judge(uses, &self.last, bus)?;
        finish(uses, bus);
        self.last = *bus;
        Ok(())
    }
}

/// Ends the use whose result is taken.
fn finish(uses: &mut UseTable, bus: &Bus)
    requires key { IsTrue bus.now.result_valid → IsKey uses.old.params (result_key bus.now) }
    requires may_finish { IsTrue bus.now.result_valid
        → IsSomeAnd (use_of uses.old (result_key bus.now))
        (λ latest. MayFinish (fact_of latest)) }
    ensures facts { (params : Params) (facts : Facts) → Represents uses.old params facts
        → Represents uses.new params (session.ended_on bus.now facts) }
    ensures taken { IsTrue (is_taken bus.now) → Sets uses.old uses.new (result_key bus.now)
        (option_map with_end (use_of uses.old (result_key bus.now))) }
    ensures kept { is_taken bus.now ≡ false → uses.new ≡ uses.old }
    ensures params { uses.new.params ≡ uses.old.params }
{
    if bus.result_valid && bus.result_ready {
        uses.finish(bus.key(Channel::Result));
    }
}

/// The first of the rules that fails.
fn judge(uses: &UseTable, last: &Bus, bus: &Bus) -> Result<(), Fault>
    requires key { IsTrue bus.now.result_valid → IsKey uses.now.params (result_key bus.now) }
    ensures fault { (params : Params) (p : Past) → last.now ≡ p.last
        → Represents uses.now params (now p bus.now)
        → result ≡ answer_of (first_fault_in result_rules params p bus.now) }
    ensures may_finish { OnOk result (IsTrue bus.now.result_valid
        → IsSomeAnd (use_of uses.now (result_key bus.now))
        (λ latest. MayFinish (fact_of latest))) }
{
    // The key that R1 reports is that of the result that was retracted.
    check(keeps_r1(last, bus), Rule::R1, last)?;
    check(keeps_r2(last, bus), Rule::R2, bus)?;
    check(keeps_r3(uses, bus), Rule::R3, bus)?;
    check(keeps_r4(uses, bus), Rule::R4, bus)?;
    check(keeps_r5(uses, bus), Rule::R5, bus)?;
    check(keeps_r6(uses, bus), Rule::R6, bus)
}

/// The fault of a rule that fails, with the key of a result.
fn check(holds: bool, rule: Rule, bus: &Bus) -> Result<(), Fault>
    ensures { result ≡ (if holds then Ok tt else Err (fault_on rule ResultChannel bus.now)) }
{
    if holds {
        Ok(())
    } else {
        Err(Fault {
            rule,
            channel: Channel::Result,
            key: bus.key(Channel::Result),
        })
    }
}
