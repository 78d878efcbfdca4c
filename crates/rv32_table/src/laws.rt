//! Laws of the table: each is the contract of a call that does nothing.
ghost use Rattle.std.specs.Prelude.{◌≡◌, ◌⊎◌, ℕ, Option, Some, None, IsTrue, Contains, if◌then◌else◌, ◌==◌};
ghost use Rattle.rv32_table.specs.declared.rows.Row.{Row};
ghost use Rattle.rv32_table.specs.declared.instr.Instr.{Instr};
ghost use Rattle.rv32_table.specs.declared.instr.Kind.TheVariants.{Load, Store};
ghost use Rattle.rv32_table.specs.Table.{row_line, rows};
ghost use Rattle.rv32_table.specs.Opcode.{opcode_of, has_rd, has_rs1, has_rs2, named};
ghost use Rattle.rv32_table.specs.Instr.{matches, row_of, decoded, kind_of, sources_of, target_of, value_of, next_of};

/// The list of rows has every row.
pub fn every_row_is_listed()
    ensures { (row : Row) → Contains rows row }
{}

/// No word matches two rows, and a word that matches a row is of that row.
pub fn a_word_is_of_one_row()
    ensures only { (word : ℕ) → (row other : Row) → IsTrue (matches word (row_line row))
        → IsTrue (matches word (row_line other)) → row ≡ other }
    ensures found { (word : ℕ) → (row : Row)
        → IsTrue (matches word (row_line row)) → row_of word ≡ Some row }
{}

/// An instruction reads and writes the registers that the format of its opcode has (RISC-V
/// Unprivileged ISA, section 2.2), and a write to x0 is none.
pub fn registers_are_those_of_the_format()
    ensures sources { (word : ℕ) → (i : Instr) → decoded word ≡ Some i
        → let opcode = opcode_of word in
        sources_of i ≡ (named (has_rs1 opcode) i.rs1, named (has_rs2 opcode) i.rs2) }
    ensures target { (word : ℕ) → (i : Instr) → decoded word ≡ Some i
        → target_of i ≡ (if i.rd == 0 then None else named (has_rd (opcode_of word)) i.rd) }
{}

/// The value of a register that an instruction doesn't read doesn't count: not for what it writes,
/// and not for where it goes. What a load or a store accesses depends on rs1, which each of them
/// reads, and a store, whose value is that of rs2, reads both.
pub fn what_is_not_read_does_not_count()
    ensures rs1 { (i : Instr) → (sources_of i).0 ≡ None → (a other b pc : ℕ)
        → (value_of i a b pc ≡ value_of i other b pc) × (next_of i a b pc ≡ next_of i other b pc) }
    ensures rs2 { (i : Instr) → (sources_of i).1 ≡ None → (a b other pc : ℕ)
        → (value_of i a b pc ≡ value_of i a other pc) × (next_of i a b pc ≡ next_of i a other pc) }
    ensures load { (i : Instr) → kind_of i ≡ Load → (sources_of i).0 ≡ Some i.rs1 }
    ensures store { (i : Instr) → kind_of i ≡ Store → sources_of i ≡ (Some i.rs1, Some i.rs2) }
{}
