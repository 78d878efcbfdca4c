//! From a word to its instruction, by the fields of the word.
ghost use Rattle.std.specs.Prelude.{◌≡◌, ℕ, IfSome};
ghost use Rattle.rv32_table.specs.Table.{row_line, IType, SType, BType, JType};
ghost use Rattle.rv32_table.specs.Instr.{decoded, row_of, immediate_of, NamesRegisters};
ghost use Rattle.rv32_table.specs.Fields.{row_of_fields};

use crate::fields::{rd_field, rs_field};
use crate::instr::Instr;
use crate::rows::Row;
use crate::word::sign_extend;

/// The instruction that a word is: `None` if and only if no row of the table matches. Each field of
/// a register is 0 to 31.
pub fn decode(word: u32) -> Option<Instr>
    ensures instr { result ≡ decoded word }
    ensures registers { IfSome result NamesRegisters }
{
    let row = row(word)?;
    Some(Instr {
        row,
        rd: rd_field(word),
        rs1: rs_field(word, 0),
        rs2: rs_field(word, 1),
        imm: immediate(row, word),
    })
}

/// The row that a word is of.
fn row(word: u32) -> Option<Row>
    ensures { result ≡ row_of word }
{
    row_by_fields(word & 0x7f, (word >> 12) & 7, word >> 25, word)
}

/// The row with these fields, opcode, funct3 and funct7, of this word (RISC-V Unprivileged ISA,
/// chapter 24).
fn row_by_fields(opcode: u32, funct3: u32, funct7: u32, word: u32) -> Option<Row>
    ensures { result ≡ row_of_fields opcode funct3 funct7 word }
{
    match opcode {
        0x37 => Some(Row::Lui),
        0x17 => Some(Row::Auipc),
        0x6f => Some(Row::Jal),
        0x67 => match funct3 {
            0 => Some(Row::Jalr),
            _ => None,
        },
        0x63 => branch_row(funct3),
        0x03 => load_row(funct3),
        0x23 => store_row(funct3),
        0x13 => immediate_row(funct3, funct7),
        0x0f => match funct3 {
            0 => Some(Row::Fence),
            _ => None,
        },
        0x33 => register_row(funct3, funct7),
        0x73 => system_row(word),
        _ => None,
    }
}

fn branch_row(funct3: u32) -> Option<Row>
    ensures { (funct7 word : ℕ) → result ≡ row_of_fields 0x63 funct3 funct7 word }
{
    match funct3 {
        0 => Some(Row::Beq),
        1 => Some(Row::Bne),
        4 => Some(Row::Blt),
        5 => Some(Row::Bge),
        6 => Some(Row::Bltu),
        7 => Some(Row::Bgeu),
        _ => None,
    }
}

fn load_row(funct3: u32) -> Option<Row>
    ensures { (funct7 word : ℕ) → result ≡ row_of_fields 0x03 funct3 funct7 word }
{
    match funct3 {
        0 => Some(Row::Lb),
        1 => Some(Row::Lh),
        2 => Some(Row::Lw),
        4 => Some(Row::Lbu),
        5 => Some(Row::Lhu),
        _ => None,
    }
}

fn store_row(funct3: u32) -> Option<Row>
    ensures { (funct7 word : ℕ) → result ≡ row_of_fields 0x23 funct3 funct7 word }
{
    match funct3 {
        0 => Some(Row::Sb),
        1 => Some(Row::Sh),
        2 => Some(Row::Sw),
        _ => None,
    }
}

/// The row of a computation with an immediate.
fn immediate_row(funct3: u32, funct7: u32) -> Option<Row>
    ensures { (word : ℕ) → result ≡ row_of_fields 0x13 funct3 funct7 word }
{
    match (funct3, funct7) {
        (0, _) => Some(Row::Addi),
        (2, _) => Some(Row::Slti),
        (3, _) => Some(Row::Sltiu),
        (4, _) => Some(Row::Xori),
        (6, _) => Some(Row::Ori),
        (7, _) => Some(Row::Andi),
        (1, 0x00) => Some(Row::Slli),
        (5, 0x00) => Some(Row::Srli),
        (5, 0x20) => Some(Row::Srai),
        _ => None,
    }
}

/// The row of a computation with two registers.
fn register_row(funct3: u32, funct7: u32) -> Option<Row>
    ensures { (word : ℕ) → result ≡ row_of_fields 0x33 funct3 funct7 word }
{
    match (funct7, funct3) {
        (0x00, 0) => Some(Row::Add),
        (0x20, 0) => Some(Row::Sub),
        (0x00, 1) => Some(Row::Sll),
        (0x00, 2) => Some(Row::Slt),
        (0x00, 3) => Some(Row::Sltu),
        (0x00, 4) => Some(Row::Xor),
        (0x00, 5) => Some(Row::Srl),
        (0x20, 5) => Some(Row::Sra),
        (0x00, 6) => Some(Row::Or),
        (0x00, 7) => Some(Row::And),
        (0x01, 0) => Some(Row::Mul),
        (0x01, 1) => Some(Row::Mulh),
        (0x01, 2) => Some(Row::Mulhsu),
        (0x01, 3) => Some(Row::Mulhu),
        (0x01, 4) => Some(Row::Div),
        (0x01, 5) => Some(Row::Divu),
        (0x01, 6) => Some(Row::Rem),
        (0x01, 7) => Some(Row::Remu),
        _ => None,
    }
}

fn system_row(word: u32) -> Option<Row>
    ensures { (funct3 funct7 : ℕ) → result ≡ row_of_fields 0x73 funct3 funct7 word }
{
    match word {
        0x0000_0073 => Some(Row::Ecall),
        0x0010_0073 => Some(Row::Ebreak),
        _ => None,
    }
}

/// The immediate of a word that is of this row.
fn immediate(row: Row, word: u32) -> u32
    ensures { result ≡ immediate_of (row_line row).format word }
{
    match row {
        Row::Lui | Row::Auipc => (word >> 12) << 12,
        Row::Jal => jump_offset(word),
        Row::Beq | Row::Bne | Row::Blt | Row::Bge | Row::Bltu | Row::Bgeu => branch_offset(word),
        Row::Sb | Row::Sh | Row::Sw => store_offset(word),
        Row::Jalr | Row::Lb | Row::Lh | Row::Lw | Row::Lbu | Row::Lhu => {
            sign_extend(word >> 20, 12)
        }
        Row::Addi | Row::Slti | Row::Sltiu | Row::Xori | Row::Ori | Row::Andi => {
            sign_extend(word >> 20, 12)
        }
        _ => 0,
    }
}

fn store_offset(word: u32) -> u32
    ensures { result ≡ immediate_of SType word }
{
    sign_extend(((word >> 25) << 5) + ((word >> 7) & 0x1f), 12)
}

fn branch_offset(word: u32) -> u32
    ensures { result ≡ immediate_of BType word }
{
    let high = ((word >> 31) << 12) + (((word >> 7) & 1) << 11);
    sign_extend(
        high + (((word >> 25) & 0x3f) << 5) + (((word >> 8) & 0xf) << 1),
        13,
    )
}

fn jump_offset(word: u32) -> u32
    ensures { result ≡ immediate_of JType word }
{
    let high = ((word >> 31) << 20) + (((word >> 12) & 0xff) << 12);
    sign_extend(
        high + (((word >> 20) & 1) << 11) + (((word >> 21) & 0x3ff) << 1),
        21,
    )
}
