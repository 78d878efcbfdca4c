//! Where jumps and branches go (RISC-V Unprivileged ISA, section 2.5).
ghost use Rattle.std.specs.Prelude.{◌≡◌};
ghost use Rattle.rv32_table.specs.Instr.{kind_of, next_of, to_target};

use crate::instr::{Instr, Kind};
use crate::rows::Row;

/// Where the machine goes after an instruction.
#[derive(Clone, Copy, Debug, PartialEq, Eq)]
pub enum Next {
    /// To the instruction at this address.
    Go(u32),
    /// Nowhere: the target is taken and no multiple of 4, which is an exception of the jump or
    /// branch itself.
    Misaligned(u32),
}

/// Where a jump or a branch goes, from the values of rs1 and rs2 and its own address. A branch that
/// isn't taken goes to the instruction after it, and is never misaligned.
pub fn branch(instr: &Instr, a: u32, b: u32, pc: u32) -> Next
    requires { kind_of instr.now ≡ Kind.Control }
    ensures { result ≡ next_of instr.now a b pc }
{
    let taken = match instr.row {
        Row::Jal => true,
        Row::Jalr => return go_to(a.wrapping_add(instr.imm) & !1),
        Row::Beq => a == b,
        Row::Bne => a != b,
        Row::Blt => a.cast_signed() < b.cast_signed(),
        Row::Bge => a.cast_signed() >= b.cast_signed(),
        Row::Bltu => a < b,
        Row::Bgeu => a >= b,
        _ => unreachable!(),
    };
    if taken {
        go_to(pc.wrapping_add(instr.imm))
    } else {
        Next::Go(pc.wrapping_add(4))
    }
}

fn go_to(target: u32) -> Next
    ensures { result ≡ to_target target }
{
    if target % 4 == 0 {
        Next::Go(target)
    } else {
        Next::Misaligned(target)
    }
}
