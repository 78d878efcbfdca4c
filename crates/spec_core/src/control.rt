//! Control transfers.
ghost use Rattle.std.specs.Prelude.{◌≡◌};
ghost use Rattle.cycle_spec.specs.Flight as flight;

use cycle_spec::EntryKind;
use rv32_table::Kind;

/// Whether an instruction jumps or branches.
pub(crate) fn is_control(kind: EntryKind) -> bool
    ensures { result ≡ flight.is_row flight.is_control_row kind }
{
    match kind {
        EntryKind::Local(instr) => is_control_row(instr.kind()),
        EntryKind::Unknown | EntryKind::Nowhere => false,
    }
}

fn is_control_row(kind: Kind) -> bool
    ensures { result ≡ flight.is_control_row kind }
{
    match kind {
        Kind::Control => true,
        _ => false,
    }
}
