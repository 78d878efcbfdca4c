//! A decoded instruction, and what the table says of it.
ghost use Rattle.std.specs.Prelude.{◌≡◌};
ghost use Rattle.rv32_table.specs.Instr.{kind_of, sources_of, target_of};

use crate::rows::Row;

/// What the machine does with an instruction.
#[derive(Clone, Copy, Debug, PartialEq, Eq)]
pub enum Kind {
    /// Computes the value of rd (RISC-V Unprivileged ISA, section 2.4 and chapter 7).
    Alu,
    /// Reads the memory (section 2.6).
    Load,
    /// Writes the memory (section 2.6).
    Store,
    /// Jumps or branches (section 2.5).
    Control,
    /// Orders memory accesses (section 2.7), which changes nothing on one hart.
    Fence,
    /// Calls the environment or the debugger (section 2.8).
    Stop,
}

/// A decoded instruction: its row, the register numbers in its fields, and its immediate, extended
/// by its sign to 32 bits. Fields that the row doesn't use are decoded all the same; `imm` is 0
/// where the row has no immediate (RISC-V Unprivileged ISA, sections 2.2 and 2.3).
#[derive(Clone, Copy, Debug, PartialEq, Eq)]
pub struct Instr {
    pub row: Row,
    pub rd: u8,
    pub rs1: u8,
    pub rs2: u8,
    pub imm: u32,
}

/// The bytes that a load or a store accesses.
#[derive(Clone, Copy, Debug, PartialEq, Eq)]
pub struct Access {
    /// The address of the first byte.
    pub addr: u32,
    /// How many bytes: 1, 2 or 4.
    pub width: u8,
    /// Whether the sign of what is loaded fills the register. A store has false here.
    pub signed: bool,
}

impl Instr {
    /// What the machine does with it: which of `alu`, `access` and `branch` has its meaning.
    pub fn kind(&self) -> Kind
        ensures { result ≡ kind_of self.now }
    {
        match self.row {
            Row::Jal | Row::Jalr => Kind::Control,
            Row::Beq | Row::Bne | Row::Blt | Row::Bge | Row::Bltu | Row::Bgeu => Kind::Control,
            Row::Lb | Row::Lh | Row::Lw | Row::Lbu | Row::Lhu => Kind::Load,
            Row::Sb | Row::Sh | Row::Sw => Kind::Store,
            Row::Fence => Kind::Fence,
            Row::Ecall | Row::Ebreak => Kind::Stop,
            _ => Kind::Alu,
        }
    }

    /// The registers that are read, as rs1 and as rs2: none where the row doesn't read it. x0 is
    /// listed as any other.
    pub fn sources(&self) -> (Option<u8>, Option<u8>)
        ensures { result ≡ sources_of self.now }
    {
        match self.row {
            Row::Lui | Row::Auipc | Row::Jal | Row::Fence | Row::Ecall | Row::Ebreak => {
                (None, None)
            }
            Row::Jalr | Row::Lb | Row::Lh | Row::Lw | Row::Lbu | Row::Lhu => (Some(self.rs1), None),
            Row::Addi | Row::Slti | Row::Sltiu | Row::Xori | Row::Ori | Row::Andi => {
                (Some(self.rs1), None)
            }
            Row::Slli | Row::Srli | Row::Srai => (Some(self.rs1), None),
            _ => (Some(self.rs1), Some(self.rs2)),
        }
    }

    /// The register that is written: none where the row writes none, and none for x0, which is
    /// always 0 (RISC-V Unprivileged ISA, section 2.1).
    pub fn target(&self) -> Option<u8>
        ensures { result ≡ target_of self.now }
    {
        match self.row {
            Row::Beq | Row::Bne | Row::Blt | Row::Bge | Row::Bltu | Row::Bgeu => None,
            Row::Sb | Row::Sh | Row::Sw | Row::Fence | Row::Ecall | Row::Ebreak => None,
            _ => if self.rd == 0 { None } else { Some(self.rd) },
        }
    }
}
