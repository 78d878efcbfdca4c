//! The register rules: G1 to G5.
ghost use Rattle.std.specs.Prelude.{◌≡◌, ◌<◌, ◌&&◌, ◌∷◌, [], IsTrue, OnOk};
ghost use Rattle.xif_base.specs.declared.params.Key.{Key};
ghost use Rattle.xif_base.specs.declared.params.Params.{Params};
ghost use Rattle.xif_base.specs.Params.{IsInRange};
ghost use Rattle.xif_signals.specs.declared.rule.Rule.TheVariants.{G1, G2, G3, G4, G5};
ghost use Rattle.xif_session.specs.Rules as rules;
ghost use Rattle.xif_session.specs.Facts as session;
ghost use Rattle.xif_session.specs.Facts.{Facts, Past};
ghost use Rattle.xif_session.specs.Tests as tests;
ghost use Rattle.xif_session.specs.Tests.{answer_of, first_fault_in};
ghost use Rattle.xif_uses.specs.Table.{IsKey, Represents, facts_in};
ghost use Rattle.issue_channel.specs.Steps.{HasKeys, AwaitsOperands};

use crate::fault::{check, check_by_key};
use crate::issue_rules::{has_flag, has_odd_flag, is_issued};
use xif_base::{Key, Params, ReadFlags};
use xif_session::Fault;
use xif_signals::{Bus, Channel, Rule};
use xif_uses::UseTable;

/// Judges the register rules of a cycle but for G5, once its start is in the table.
pub fn check_register(
    continues: bool,
    params: &Params,
    uses: &UseTable,
    last: &Bus,
    bus: &Bus,
) -> Result<(), Fault>
    requires range { IsInRange params.now }
    requires keys { HasKeys uses.now.params bus.now }
    ensures fault { (p : Past) → p.last ≡ last.now
        → continues ≡ session.register_continues p bus.now
        → Represents uses.now params.now (session.named p bus.now)
        → result ≡ answer_of (first_fault_in (G1 ∷ G2 ∷ G3 ∷ G4 ∷ []) params.now p bus.now) }
    ensures awaits { OnOk result (AwaitsOperands uses.now bus.now) }
{
    check_by_key(keeps_g1(params, bus), Rule::G1, bus.issue_valid, bus)?;
    check(keeps_g2(uses, bus), Rule::G2, Channel::Register, bus)?;
    check(
        keeps_g3(continues, last, bus),
        Rule::G3,
        Channel::Register,
        bus,
    )?;
    check(
        keeps_g4(continues, params, last, bus),
        Rule::G4,
        Channel::Register,
        bus,
    )
}

/// Judges G5, once the responses and the operands of the cycle are in the table.
pub fn check_operands(uses: &UseTable, bus: &Bus) -> Result<(), Fault>
    requires { HasKeys uses.now.params bus.now }
    ensures { (params : Params) (p : Past)
        → Represents uses.now params
        (session.given_on bus.now (session.answered_on bus.now (session.named p bus.now)))
        → result ≡ answer_of (first_fault_in (G5 ∷ []) params p bus.now) }
{
    check_by_key(keeps_g5_issue(uses, bus), Rule::G5, true, bus)?;
    check_by_key(keeps_g5_register(uses, bus), Rule::G5, false, bus)
}

/// G1: without split the register channel mirrors the issue channel.
fn keeps_g1(params: &Params, bus: &Bus) -> bool
    ensures { result ≡ tests.keeps_G1 params.now bus.now }
{
    if params.split {
        return true;
    }
    bus.register_valid == bus.issue_valid && (!bus.issue_valid || is_mirrored(bus))
}

/// Whether the register channel has the ready and the key of the issue channel.
fn is_mirrored(bus: &Bus) -> bool
    ensures { result ≡ (tests.same_bit bus.now.register_ready bus.now.issue_ready
        && session.same_key (session.register_key bus.now) (session.issue_key bus.now)) }
{
    bus.register_ready == bus.issue_ready && bus.key(Channel::Register) == bus.key(Channel::Issue)
}

/// G2: registers are for a use that there is, and that hasn't got them yet.
fn keeps_g2(uses: &UseTable, bus: &Bus) -> bool
    requires { HasKeys uses.now.params bus.now }
    ensures test { (params : Params) (p : Past)
        → Represents uses.now params (session.named p bus.now)
        → result ≡ tests.keeps_G2 p bus.now }
    ensures awaits { IsTrue result → AwaitsOperands uses.now bus.now }
{
    if !bus.register_valid {
        return true;
    }
    match uses.latest(bus.key(Channel::Register)) {
        Some(latest) => latest.operands.is_none(),
        None => false,
    }
}

/// G3: while the register transaction continues, no flag of rs_valid falls.
fn keeps_g3(continues: bool, last: &Bus, bus: &Bus) -> bool
    ensures { (p : Past) → p.last ≡ last.now
        → continues ≡ session.register_continues p bus.now
        → result ≡ tests.keeps_G3 p bus.now }
{
    !continues || is_within(last.register_rs_valid, bus.register_rs_valid)
}

/// Whether the flags of one set are in another one.
fn is_within(read: u8, flags: u8) -> bool
    ensures { result ≡ tests.is_within read flags }
{
    flags & read == read
}

/// G4: each half that was valid is stable.
fn keeps_g4(continues: bool, params: &Params, last: &Bus, bus: &Bus) -> bool
    requires { IsInRange params.now }
    ensures { (p : Past) → p.last ≡ last.now
        → continues ≡ session.register_continues p bus.now
        → result ≡ tests.keeps_G4 params.now p bus.now }
{
    if !continues {
        return true;
    }
    is_lane_stable(params, 0, last, bus)
        && is_lane_stable(params, 1, last, bus)
        && (params.num_rs != 3 || is_lane_stable(params, 2, last, bus))
}

/// Whether the halves of a lane that were valid are the same.
fn is_lane_stable(params: &Params, lane: u8, last: &Bus, bus: &Bus) -> bool
    requires range { IsInRange params.now }
    requires lane { lane < params.now.num_rs }
    ensures { result
        ≡ tests.same_halves params.now last.now.register_rs_valid last.now bus.now lane }
{
    let flags = last.register_rs_valid;
    let before = lane_value(last, lane);
    let after = lane_value(bus, lane);
    let even = has_flag(flags, ReadFlags::even_bit(params, lane));
    let odd = has_odd_flag(params, flags, lane);
    (!even || after % (1 << 32) == before % (1 << 32))
        && (!odd || after / (1 << 32) == before / (1 << 32))
}

/// What the register channel carries in a lane.
fn lane_value(bus: &Bus, lane: u8) -> u64
    ensures { result ≡ rules.lane_value bus.now lane }
{
    match lane {
        0 => bus.register_rs0,
        1 => bus.register_rs1,
        _ => bus.register_rs2,
    }
}

/// G5 of the use that is answered: an accepted use that got its registers got the halves that it
/// reads.
fn keeps_g5_issue(uses: &UseTable, bus: &Bus) -> bool
    requires { HasKeys uses.now.params bus.now }
    ensures { (params : Params) (p : Past)
        → Represents uses.now params
        (session.given_on bus.now (session.answered_on bus.now (session.named p bus.now)))
        → result ≡ tests.keeps_G5_issue p bus.now }
{
    !is_issued(bus) || has_operands(uses, bus.key(Channel::Issue))
}

/// G5 of the use that gets its registers.
fn keeps_g5_register(uses: &UseTable, bus: &Bus) -> bool
    requires { HasKeys uses.now.params bus.now }
    ensures { (params : Params) (p : Past)
        → Represents uses.now params
        (session.given_on bus.now (session.answered_on bus.now (session.named p bus.now)))
        → result ≡ tests.keeps_G5_register p bus.now }
{
    !is_given(bus) || has_operands(uses, bus.key(Channel::Register))
}

/// Whether the latest use of a key has the halves that it reads, if it was accepted and got its
/// registers.
fn has_operands(uses: &UseTable, key: Key) -> bool
    requires { IsKey uses.now.params key }
    ensures { result ≡ tests.if_use
        (λ fact. tests.has_operands fact.response fact.operands) (facts_in uses.now key) }
{
    let Some(latest) = uses.latest(key) else {
        return true;
    };
    match (latest.response, latest.operands) {
        (Some(response), Some(flags)) => {
            !response.accept || is_within(response.register_read.bits(), flags.bits())
        }
        _ => true,
    }
}

/// Whether the register transaction is accepted in this cycle.
pub fn is_given(bus: &Bus) -> bool
    ensures { result ≡ session.is_given bus.now }
{
    bus.register_valid && bus.register_ready
}
