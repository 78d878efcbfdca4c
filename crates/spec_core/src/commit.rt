//! What the commit interface names in a cycle (CV-X-IF 1.0.0, "Commit interface").
ghost use Rattle.std.specs.Prelude.{◌≡◌, option_copied, drop};
ghost use Rattle.std.specs.Option.{option_and_then};
ghost use Rattle.cycle_spec.specs.Choices as spec;

use cycle_spec::{Cut, Entry};
use flight_table::{FlightTable, Wanted};

/// The word that a kill names where a cut drops entries: the oldest undecided use that had its
/// issue handshake, and without one the word on the issue interface, if it goes.
pub fn kill_among<'a>(
    table: &'a FlightTable,
    cut: Option<Cut>,
    offer: Option<&Entry>,
) -> Option<&'a Entry>
    ensures { option_copied result
        ≡ spec.kill_among (spec.gone_by cut table.now.entries) (option_copied offer.entry) }
{
    match cut {
        None => None,
        Some(cut) => kill_behind(table, cut.keep, offer),
    }
}

fn kill_behind<'a>(table: &'a FlightTable, keep: u8, offer: Option<&Entry>) -> Option<&'a Entry>
    ensures { option_copied result
        ≡ spec.kill_among (drop keep table.now.entries) (option_copied offer.entry) }
{
    match table.first_behind(keep, Wanted::Pending) {
        Some(entry) => Some(entry),
        None => among_behind(table, keep, offer),
    }
}

/// The word on the issue interface, if it goes.
fn among_behind<'a>(table: &'a FlightTable, keep: u8, offer: Option<&Entry>) -> Option<&'a Entry>
    ensures { option_copied result
        ≡ option_and_then (spec.among (drop keep table.now.entries)) (option_copied offer.entry) }
{
    match offer {
        None => None,
        Some(entry) => table.first_behind(keep, Wanted::Number(entry.seq)),
    }
}

/// The word that a release names, where nothing is cut.
pub fn release_in(table: &FlightTable, cut: Option<Cut>) -> Option<&Entry>
    ensures { option_copied result ≡ spec.release_in cut table.now.entries }
{
    match cut {
        None => table.certain(),
        Some(_) => None,
    }
}
