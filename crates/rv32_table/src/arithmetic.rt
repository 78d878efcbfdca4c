//! What the instructions of kind `Alu` compute (RISC-V Unprivileged ISA, section 2.4 and
//! chapter 7).
ghost use Rattle.std.specs.Prelude.{◌≡◌, ◌*ℤ◌, pos};
ghost use Rattle.rv32_table.specs.Instr.{kind_of, value_of};
ghost use Rattle.rv32_table.specs.Word.{signed, high_word, shifted_left, shifted_right, quotient, remainder};

use crate::instr::{Instr, Kind};
use crate::rows::Row;

/// The value of rd, from the values of rs1 and rs2 and the address of the instruction.
pub fn alu(instr: &Instr, a: u32, b: u32, pc: u32) -> u32
    requires { kind_of instr.now ≡ Kind.Alu }
    ensures { result ≡ value_of instr.now a b pc }
{
    let imm = instr.imm;
    match instr.row {
        Row::Lui => imm,
        Row::Auipc => pc.wrapping_add(imm),
        Row::Addi => a.wrapping_add(imm),
        Row::Slti => u32::from(a.cast_signed() < imm.cast_signed()),
        Row::Sltiu => u32::from(a < imm),
        Row::Xori => a ^ imm,
        Row::Ori => a | imm,
        Row::Andi => a & imm,
        Row::Slli => shift_left(a, u32::from(instr.rs2)),
        Row::Srli => shift_right(a, u32::from(instr.rs2)),
        Row::Srai => shift_right_signed(a, u32::from(instr.rs2)),
        Row::Add => a.wrapping_add(b),
        Row::Sub => a.wrapping_sub(b),
        Row::Sll => shift_left(a, b),
        Row::Slt => u32::from(a.cast_signed() < b.cast_signed()),
        Row::Sltu => u32::from(a < b),
        Row::Xor => a ^ b,
        Row::Srl => shift_right(a, b),
        Row::Sra => shift_right_signed(a, b),
        Row::Or => a | b,
        Row::And => a & b,
        Row::Mul => a.wrapping_mul(b),
        Row::Mulh => high(i64::from(a.cast_signed()) * i64::from(b.cast_signed())),
        Row::Mulhsu => high(i64::from(a.cast_signed()) * i64::from(b)),
        Row::Mulhu => high_unsigned(a, b),
        Row::Div => divide_signed(a, b),
        Row::Divu => divide(a, b),
        Row::Rem => remainder_signed(a, b),
        Row::Remu => remainder_unsigned(a, b),
        _ => unreachable!(),
    }
}

fn shift_left(a: u32, amount: u32) -> u32
    ensures { result ≡ shifted_left a amount }
{
    a << (amount & 31)
}

fn shift_right(a: u32, amount: u32) -> u32
    ensures { result ≡ shifted_right (pos a) amount }
{
    a >> (amount & 31)
}

fn shift_right_signed(a: u32, amount: u32) -> u32
    ensures { result ≡ shifted_right (signed a) amount }
{
    (a.cast_signed() >> (amount & 31)).cast_unsigned()
}

/// The high word of a product.
fn high(product: i64) -> u32
    ensures { result ≡ high_word product }
{
    ((product >> 32) as i32).cast_unsigned()
}

fn high_unsigned(a: u32, b: u32) -> u32
    ensures { result ≡ high_word (pos a *ℤ pos b) }
{
    ((u64::from(a) * u64::from(b)) >> 32) as u32
}

fn divide_signed(a: u32, b: u32) -> u32
    ensures { result ≡ quotient (signed a) (signed b) }
{
    if b == 0 {
        u32::MAX
    } else {
        a.cast_signed()
            .wrapping_div(b.cast_signed())
            .cast_unsigned()
    }
}

fn divide(a: u32, b: u32) -> u32
    ensures { result ≡ quotient (pos a) (pos b) }
{
    if b == 0 { u32::MAX } else { a / b }
}

fn remainder_signed(a: u32, b: u32) -> u32
    ensures { result ≡ remainder (signed a) (signed b) }
{
    if b == 0 {
        a
    } else {
        a.cast_signed()
            .wrapping_rem(b.cast_signed())
            .cast_unsigned()
    }
}

fn remainder_unsigned(a: u32, b: u32) -> u32
    ensures { result ≡ remainder (pos a) (pos b) }
{
    if b == 0 { a } else { a % b }
}
