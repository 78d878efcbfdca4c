//! The oldest entry: whether it stops the machine, and whether it retires.
ghost use Rattle.std.specs.Prelude.{◌≡◌, option_copied, take};
ghost use Rattle.cycle_spec.specs.Choices as spec;

use cycle_spec::Entry;
use flight_table::FlightTable;
use inorder_machine::StopCause;

/// Why the oldest entry stops the machine, if it does.
pub fn stop_at(table: &FlightTable) -> Option<StopCause>
    ensures { result ≡ spec.stop_at table.now.entries }
{
    if table.len() == 0 {
        None
    } else {
        table.entry(0).stop
    }
}

/// The oldest entry, if it is one of the `count` oldest and retires.
pub fn retirement_among(table: &FlightTable, count: u8) -> Option<&Entry>
    ensures { option_copied result ≡ spec.retirement (take count table.now.entries) }
{
    if count == 0 || table.len() == 0 {
        return None;
    }
    let oldest = table.entry(0);
    if oldest.done { Some(oldest) } else { None }
}
