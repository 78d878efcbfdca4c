//! The issue rules: I1 to I5.
ghost use Rattle.std.specs.Prelude.{◌≡◌, ◌<◌, ◌==◌, ◌%◌};
ghost use Rattle.rv32_table.specs.Instr.{source_field};
ghost use Rattle.xif_base.specs.Params.{IsInRange};
ghost use Rattle.xif_signals.specs.Known.{when, has_flag as has_flag_of};
ghost use Rattle.xif_session.specs.Facts as session;
ghost use Rattle.xif_session.specs.Facts.{Past};
ghost use Rattle.xif_session.specs.Tests as tests;
ghost use Rattle.xif_session.specs.Tests.{answer_of, first_fault_in};
ghost use Rattle.xif_uses.specs.declared.handshake.Phase.TheVariants.{Starts};
ghost use Rattle.xif_uses.specs.Table.{IsKey, Represents};
ghost use Rattle.issue_channel.specs.Steps.{issue_phase};

use crate::fault::check;
use rv32_table::{rd_field, rs_field};
use xif_base::{Params, ReadFlags};
use xif_session::Fault;
use xif_signals::{Bus, Channel, Rule};
use xif_uses::{Phase, UseTable};

/// Judges the issue rules of a cycle, before its start is in the table.
pub fn check_issue(
    phase: Phase,
    params: &Params,
    uses: &UseTable,
    last: &Bus,
    bus: &Bus,
) -> Result<(), Fault>
    requires range { IsInRange params.now }
    requires key { phase ≡ Starts → IsKey uses.now.params (session.issue_key bus.now) }
    ensures { (p : Past) → p.last ≡ last.now → phase ≡ issue_phase p bus.now
        → Represents uses.now params.now p.facts
        → result ≡ answer_of (first_fault_in tests.issue_rules params.now p bus.now) }
{
    check(keeps_i1(phase, last, bus), Rule::I1, Channel::Issue, bus)?;
    check(keeps_i2(phase, uses, bus), Rule::I2, Channel::Issue, bus)?;
    check(keeps_i3(bus), Rule::I3, Channel::Issue, bus)?;
    check(keeps_i4(params, bus), Rule::I4, Channel::Issue, bus)?;
    check(keeps_i5(params, bus), Rule::I5, Channel::Issue, bus)
}

/// I1: the instruction of a transaction that continues is stable.
fn keeps_i1(phase: Phase, last: &Bus, bus: &Bus) -> bool
    ensures { (p : Past) → p.last ≡ last.now → phase ≡ issue_phase p bus.now
        → result ≡ tests.keeps_I1 p bus.now }
{
    phase != Phase::Continues || bus.issue_instr == last.issue_instr
}

/// I2: no use of a key that starts is in flight.
fn keeps_i2(phase: Phase, uses: &UseTable, bus: &Bus) -> bool
    requires { phase ≡ Starts → IsKey uses.now.params (session.issue_key bus.now) }
    ensures { (params : Params) (p : Past) → phase ≡ issue_phase p bus.now
        → Represents uses.now params p.facts
        → result ≡ tests.keeps_I2 params p bus.now }
{
    match phase {
        Phase::Starts => !uses.in_flight(bus.key(Channel::Issue)),
        Phase::Idle | Phase::Continues => true,
    }
}

/// I3: what is refused writes nothing.
fn keeps_i3(bus: &Bus) -> bool
    ensures { result ≡ tests.keeps_I3 bus.now }
{
    !is_issued(bus) || bus.issue_accept || bus.issue_writeback == 0
}

/// I4: a pair is written only with X_DUALWRITE, and at an even register.
fn keeps_i4(params: &Params, bus: &Bus) -> bool
    ensures { result ≡ tests.keeps_I4 params.now bus.now }
{
    if !is_issued(bus) || !bus.issue_accept || !has_flag(bus.issue_writeback, 1) {
        return true;
    }
    params.dual_write && rd_field(bus.issue_instr) % 2 == 0
}

/// I5: the high half of a lane is read only at an even register.
fn keeps_i5(params: &Params, bus: &Bus) -> bool
    requires { IsInRange params.now }
    ensures { result ≡ tests.keeps_I5 params.now bus.now }
{
    if !is_issued(bus) || !bus.issue_accept {
        return true;
    }
    is_pair_even(params, 0, bus)
        && is_pair_even(params, 1, bus)
        && (params.num_rs != 3 || is_pair_even(params, 2, bus))
}

/// Whether a lane's source register is even, where its high half is read.
fn is_pair_even(params: &Params, lane: u8, bus: &Bus) -> bool
    requires range { IsInRange params.now }
    requires lane { lane < params.now.num_rs }
    ensures { result
        ≡ when (tests.has_odd_flag params.now bus.now.issue_register_read lane)
        (source_field bus.now.issue_instr lane % 2 == 0) }
{
    !has_odd_flag(params, bus.issue_register_read, lane) || rs_field(bus.issue_instr, lane) % 2 == 0
}

/// Whether the flag of a lane's high half is set.
pub fn has_odd_flag(params: &Params, flags: u8, lane: u8) -> bool
    requires range { IsInRange params.now }
    requires lane { lane < params.now.num_rs }
    ensures { result ≡ tests.has_odd_flag params.now flags lane }
{
    match ReadFlags::odd_bit(params, lane) {
        Some(bit) => has_flag(flags, bit),
        None => false,
    }
}

/// Whether a bit of the flags is 1.
pub fn has_flag(flags: u8, bit: u8) -> bool
    requires { bit < 8 }
    ensures { result ≡ has_flag_of flags bit }
{
    (flags >> bit) & 1 == 1
}

/// Whether the issue transaction is accepted in this cycle.
pub fn is_issued(bus: &Bus) -> bool
    ensures { result ≡ session.is_issued bus.now }
{
    bus.issue_valid && bus.issue_ready
}
