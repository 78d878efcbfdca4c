//! The rules of the result channel, each of the table as it stands behind the cycle's decision.
ghost use Rattle.std.specs.Prelude.{◌≡◌, ◌<◌, ◌==◌, not, is_some, IsTrue, IsSomeAnd};
ghost use Rattle.std.specs.Option.{option_map};
ghost use Rattle.rv32_table.specs.Instr.{rd_field as rd_field_of};
ghost use Rattle.xif_base.specs.declared.params.Params.{Params};
ghost use Rattle.xif_signals.specs.Known as known;
ghost use Rattle.xif_session.specs.Facts as facts;
ghost use Rattle.xif_session.specs.Facts.{Facts, Past, result_key, now};
ghost use Rattle.xif_session.specs.Rules as session;
ghost use Rattle.xif_session.specs.Rules.{MayFinish};
ghost use Rattle.xif_session.specs.Tests as tests;
ghost use Rattle.xif_uses.specs.Table.{IsKey, Represents, use_of, fact_of};

use rv32_table::rd_field;
use xif_signals::{Bus, Channel};
use xif_uses::{Decision, Use, UseTable};

/// R1: a result that waits isn't retracted.
pub(crate) fn keeps_r1(last: &Bus, bus: &Bus) -> bool
    ensures { (p : Past) → last.now ≡ p.last → result ≡ tests.keeps_R1 p bus.now }
{
    !waits(last) || bus.result_valid
}

/// R2: and it is stable, in what its flags name.
pub(crate) fn keeps_r2(last: &Bus, bus: &Bus) -> bool
    ensures { (p : Past) → last.now ≡ p.last → result ≡ tests.keeps_R2 p bus.now }
{
    !waits(last) || is_same_result(last, bus)
}

/// R3: a result is for a use that was accepted and released by this cycle, and has given none
/// before.
pub(crate) fn keeps_r3(uses: &UseTable, bus: &Bus) -> bool
    requires key { IsTrue bus.now.result_valid → IsKey uses.now.params (result_key bus.now) }
    ensures test { (params : Params) (p : Past) → Represents uses.now params (now p bus.now)
        → result ≡ tests.keeps_R3 p bus.now }
    ensures may_finish { IsTrue result → IsTrue bus.now.result_valid
        → IsSomeAnd (use_of uses.now (result_key bus.now))
        (λ latest. MayFinish (fact_of latest)) }
{
    !bus.result_valid || may_finish(latest(uses, bus))
}

/// R4: a use that reads registers has got them.
pub(crate) fn keeps_r4(uses: &UseTable, bus: &Bus) -> bool
    requires key { IsTrue bus.now.result_valid → IsKey uses.now.params (result_key bus.now) }
    ensures { (params : Params) (p : Past) → Represents uses.now params (now p bus.now)
        → result ≡ tests.keeps_R4 p bus.now }
{
    !bus.result_valid || has_its_operands(latest(uses, bus))
}

/// R5: a result writes what the response said.
pub(crate) fn keeps_r5(uses: &UseTable, bus: &Bus) -> bool
    requires key { IsTrue bus.now.result_valid → IsKey uses.now.params (result_key bus.now) }
    ensures { (params : Params) (p : Past) → Represents uses.now params (now p bus.now)
        → result ≡ tests.keeps_R5 p bus.now }
{
    !bus.result_valid || has_writeback(latest(uses, bus), bus.result_we)
}

/// R6: it writes the register that the instruction names.
pub(crate) fn keeps_r6(uses: &UseTable, bus: &Bus) -> bool
    requires key { IsTrue bus.now.result_valid → IsKey uses.now.params (result_key bus.now) }
    ensures { (params : Params) (p : Past) → Represents uses.now params (now p bus.now)
        → result ≡ tests.keeps_R6 p bus.now }
{
    !bus.result_valid || bus.result_we == 0 || has_rd(latest(uses, bus), bus.result_rd)
}

/// The latest use of the key of a result.
fn latest(uses: &UseTable, bus: &Bus) -> Option<Use>
    requires key { IsKey uses.now.params (result_key bus.now) }
    ensures latest { result ≡ use_of uses.now (result_key bus.now) }
    ensures fact { (params : Params) (facts : Facts) → Represents uses.now params facts
        → option_map fact_of result ≡ facts (result_key bus.now) }
{
    uses.latest(bus.key(Channel::Result))
}

fn waits(bus: &Bus) -> bool
    ensures { result ≡ facts.result_waits bus.now }
{
    bus.result_valid && !bus.result_ready
}

fn is_same_result(before: &Bus, after: &Bus) -> bool
    ensures { result ≡ tests.is_same_result before.now after.now }
{
    let we = after.result_we;
    let is_same_target = after.key(Channel::Result) == before.key(Channel::Result)
        && we == before.result_we
        && (we == 0 || after.result_rd == before.result_rd);
    is_same_target
        && (!has_flag(we, 0) || low_half(after.result_data) == low_half(before.result_data))
        && (!has_flag(we, 1) || high_half(after.result_data) == high_half(before.result_data))
}

fn has_flag(flags: u8, bit: u8) -> bool
    requires { bit < 8 }
    ensures { result ≡ known.has_flag flags bit }
{
    (flags >> bit) & 1 == 1
}

fn low_half(value: u64) -> u64
    ensures { result ≡ session.low_half value }
{
    value % (1 << 32)
}

fn high_half(value: u64) -> u64
    ensures { result ≡ session.high_half value }
{
    value >> 32
}

fn may_finish(latest: Option<Use>) -> bool
    ensures { result ≡ tests.is_use tests.may_finish (option_map fact_of latest) }
{
    match latest {
        None => false,
        Some(latest) => {
            latest.response.is_some_and(|response| response.accept)
                && latest.decision == Decision::Released
                && !latest.finished
        }
    }
}

fn has_its_operands(latest: Option<Use>) -> bool
    ensures { result ≡ tests.if_use (λ fact. known.when (not (session.read_of fact.response == 0))
        (is_some fact.operands)) (option_map fact_of latest) }
{
    match latest {
        None => true,
        Some(latest) => !reads(&latest) || latest.operands.is_some(),
    }
}

fn reads(latest: &Use) -> bool
    ensures { result ≡ not (session.read_of latest.now.response == 0) }
{
    match latest.response {
        None => false,
        Some(response) => response.register_read.bits() != 0,
    }
}

fn has_writeback(latest: Option<Use>, we: u8) -> bool
    ensures { result ≡ tests.if_use (λ fact. we == session.writeback_of fact.response)
        (option_map fact_of latest) }
{
    match latest {
        None => true,
        Some(latest) => we == writeback(&latest),
    }
}

/// The registers that the response says, and none before it.
fn writeback(latest: &Use) -> u8
    ensures { result ≡ session.writeback_of latest.now.response }
{
    match latest.response {
        None => 0,
        Some(response) => response.writeback.bits(),
    }
}

fn has_rd(latest: Option<Use>, rd: u8) -> bool
    ensures { result ≡ tests.if_use (λ fact. rd == rd_field_of fact.instr)
        (option_map fact_of latest) }
{
    match latest {
        None => true,
        Some(latest) => rd == rd_field(latest.instr),
    }
}
