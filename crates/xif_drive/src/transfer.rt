//! Which instructions have their target in their word.
ghost use Rattle.std.specs.Prelude.{◌≡◌};
ghost use Rattle.xif_drive.specs.Predictors as spec;

use rv32_table::{Instr, Row};

/// Whether an instruction is a branch.
pub(crate) fn is_branch(instr: &Instr) -> bool
    ensures { result ≡ spec.is_branch instr.now }
{
    match instr.row {
        Row::Beq | Row::Bne | Row::Blt | Row::Bge | Row::Bltu | Row::Bgeu => true,
        _ => false,
    }
}
