//! The accumulators ahead of the releases.
ghost use Rattle.std.specs.Prelude.{◌≡◌, ◌<◌, All, length, slice_set};
ghost use Rattle.coproc_config.specs.Check.{IsLawful};
ghost use Rattle.coproc_config.specs.State.{IsStateOf, accumulators_of};
ghost use Rattle.cycle_spec.specs.Engine as spec;
ghost use Rattle.coproc_engine.specs.Fits.{HaveEntries, ahead_in_harts};

use crate::settle::{apply, has_operands, is_next};
use coproc_config::{Set, UnitState};
use cycle_spec::Use;

/// The accumulators of each hart, from those after its ready uses, also after the uses that have
/// the registers that they read, up to the first that hasn't.
pub fn look_ahead(set: &Set, units: &[UnitState], uses: &[Use], ahead: &mut [UnitState])
    requires lawful { IsLawful set.now }
    requires harts { length units.now < 256 }
    requires count { length ahead.old ≡ length units.now }
    requires states { All (IsStateOf set.now) units.now }
    requires old { All (IsStateOf set.now) ahead.old }
    requires entries { HaveEntries set.now uses.now }
    ensures ahead { ahead.new ≡ ahead_in_harts set.now 0 units.now uses.now }
    ensures fits { All (IsStateOf set.now) ahead.new }
{
    for hart in 0..units.len() {
        look_ahead_in(set, hart as u8, &units[hart], uses, &mut ahead[hart]);
    }
}

/// The same of one hart.
fn look_ahead_in(set: &Set, hart: u8, state: &UnitState, uses: &[Use], ahead: &mut UnitState)
    requires lawful { IsLawful set.now }
    requires state { IsStateOf set.now state.now }
    requires old { IsStateOf set.now ahead.old }
    requires entries { HaveEntries set.now uses.now }
    ensures ahead { ahead.new
        ≡ spec.units_behind set.now spec.has_operands hart state.now uses.now }
    ensures fits { IsStateOf set.now ahead.new }
{
    copy(set, state, ahead);
    for entry in uses {
        if !is_next(hart, entry) {
            continue;
        }
        if !has_operands(entry) {
            return;
        }
        apply(set, ahead, entry);
    }
}

/// Puts the accumulators of another state of the set in place of a state's own.
fn copy(set: &Set, from: &UnitState, state: &mut UnitState)
    requires lawful { IsLawful set.now }
    requires from { IsStateOf set.now from.now }
    requires old { IsStateOf set.now state.old }
    ensures { state.new ≡ from.now }
{
    for unit in 0..set.len() {
        copy_unit(set.get(unit).accumulators, unit as u8, from, state);
    }
}

/// The same for one unit.
fn copy_unit(count: u8, unit: u8, from: &UnitState, state: &mut UnitState)
    requires from { unit < length from.now }
    requires old { unit < length state.old }
    requires count { length (accumulators_of from.now unit) ≡ count }
    requires old_count { length (accumulators_of state.old unit) ≡ count }
    ensures { state.new ≡ slice_set state.old unit (accumulators_of from.now unit) }
{
    for acc in 0..count {
        state.put(unit, acc, from.get(unit, acc));
    }
}
