//! What loads and stores access (RISC-V Unprivileged ISA, section 2.6).
ghost use Rattle.std.specs.Prelude.{◌≡◌, ◌⊎◌};
ghost use Rattle.rv32_table.specs.Instr.{kind_of, access_of};

use crate::instr::{Access, Instr, Kind};
use crate::rows::Row;

/// What a load or a store accesses, from the value of rs1.
pub fn access(instr: &Instr, a: u32) -> Access
    requires { (kind_of instr.now ≡ Kind.Load) ⊎ (kind_of instr.now ≡ Kind.Store) }
    ensures { result ≡ access_of instr.now a }
{
    let addr = a.wrapping_add(instr.imm);
    let (width, signed) = match instr.row {
        Row::Lb => (1, true),
        Row::Lh => (2, true),
        Row::Lbu | Row::Sb => (1, false),
        Row::Lhu | Row::Sh => (2, false),
        Row::Lw | Row::Sw => (4, false),
        _ => unreachable!(),
    };
    Access {
        addr,
        width,
        signed,
    }
}
