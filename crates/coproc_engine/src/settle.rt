//! The units: the uses of a hart are applied in the order of their issue handshakes.
ghost use Rattle.std.specs.Prelude.{◌≡◌, ◌<◌, ◌^◌, ℕ, length, All};
ghost use Rattle.coproc_config.specs.Check.{IsLawful};
ghost use Rattle.coproc_config.specs.State.{IsStateOf};
ghost use Rattle.coproc_config.specs.Table.{result_bits};
ghost use Rattle.xif_session.specs.Facts as session;
ghost use Rattle.cycle_spec.specs.Engine as spec;
ghost use Rattle.coproc_engine.specs.Fits.{HasEntry, HaveEntries, IsNarrow, AreNarrow};

use crate::find::{is_killed, register_read_of};
use coproc_config::{Operands, Set, UnitState};
use cycle_spec::Use;
use xif_session::Decision;

/// The uses that are complete are ready now, each hart up to its first that isn't, and its
/// accumulators are those after them.
pub fn settle(set: &Set, cycle: u64, units: &mut [UnitState], uses: &mut [Use])
    requires lawful { IsLawful set.now }
    requires harts { length units.old < 256 }
    requires states { All (IsStateOf set.now) units.old }
    requires entries { HaveEntries set.now uses.old }
    ensures uses { uses.new ≡ spec.ready_in_harts set.now cycle 0 units.old uses.old }
    ensures units { units.new ≡ spec.units_in_harts set.now 0 units.old uses.old }
    ensures count { length units.new ≡ length units.old }
    ensures fits { All (IsStateOf set.now) units.new }
    ensures kept { HaveEntries set.now uses.new }
    ensures narrow { (flags bits : ℕ) → AreNarrow flags bits uses.old
        → AreNarrow flags bits uses.new }
{
    for hart in 0..units.len() {
        settle_hart(set, cycle, hart as u8, &mut units[hart], uses);
    }
}

/// The same for one hart.
fn settle_hart(set: &Set, cycle: u64, hart: u8, state: &mut UnitState, uses: &mut [Use])
    requires lawful { IsLawful set.now }
    requires state { IsStateOf set.now state.old }
    requires entries { HaveEntries set.now uses.old }
    ensures uses { uses.new ≡ spec.ready_uses set.now cycle hart state.old uses.old }
    ensures state { state.new
        ≡ spec.units_behind set.now spec.is_complete hart state.old uses.old }
    ensures fits { IsStateOf set.now state.new }
    ensures kept { HaveEntries set.now uses.new }
    ensures narrow { (flags bits : ℕ) → AreNarrow flags bits uses.old
        → AreNarrow flags bits uses.new }
{
    for i in 0..uses.len() {
        let entry = uses[i];
        if !is_next(hart, &entry) {
            continue;
        }
        if !is_complete(&entry) {
            return;
        }
        uses[i] = ready_now(set, cycle, state, entry);
    }
}

/// A use with its result, which changes the accumulators.
fn ready_now(set: &Set, cycle: u64, state: &mut UnitState, entry: Use) -> Use
    requires lawful { IsLawful set.now }
    requires state { IsStateOf set.now state.old }
    requires entry { HasEntry set.now entry }
    ensures entry { result
        ≡ spec.with_ready cycle (spec.outcome_of set.now state.old entry).result entry }
    ensures state { state.new ≡ (spec.outcome_of set.now state.old entry).state }
    ensures fits { IsStateOf set.now state.new }
    ensures narrow { (flags bits : ℕ) → IsNarrow flags bits entry → IsNarrow flags bits result }
{
    Use {
        ready: Some(cycle),
        result: apply(set, state, &entry),
        ..entry
    }
}

/// Applies a use: returns its result, and changes the accumulators.
pub fn apply(set: &Set, state: &mut UnitState, entry: &Use) -> u64
    requires lawful { IsLawful set.now }
    requires state { IsStateOf set.now state.old }
    requires entry { HasEntry set.now entry.now }
    ensures result { result ≡ (spec.outcome_of set.now state.old entry.now).result }
    ensures state { state.new ≡ (spec.outcome_of set.now state.old entry.now).state }
    ensures fits { IsStateOf set.now state.new }
    ensures bits { result < 2 ^ result_bits (spec.writeback_of (entry.now).hit) }
{
    match entry.hit {
        None => 0,
        Some(hit) => set.apply(&hit, state, &Operands { lanes: entry.lanes }),
    }
}

/// Whether it is the turn of a use: it is an accepted one of the hart, neither killed nor ready.
pub fn is_next(hart: u8, entry: &Use) -> bool
    ensures { result ≡ spec.is_next hart entry.now }
{
    entry.key.hart == hart
        && entry.hit.is_some()
        && !is_killed(entry.decision)
        && entry.ready.is_none()
}

/// Whether it is released, and has the registers that it reads.
fn is_complete(entry: &Use) -> bool
    ensures { result ≡ spec.is_complete entry.now }
{
    is_released(entry.decision) && has_operands(entry)
}

/// Whether the registers that it reads are here.
pub fn has_operands(entry: &Use) -> bool
    ensures { result ≡ spec.has_operands entry.now }
{
    entry.given || register_read_of(entry.hit) == 0
}

fn is_released(decision: Decision) -> bool
    ensures { result ≡ session.is_released decision }
{
    match decision {
        Decision::Released => true,
        Decision::Undecided | Decision::Killed => false,
    }
}
