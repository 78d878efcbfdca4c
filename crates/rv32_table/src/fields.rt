//! The fields of a word that name registers (RISC-V Unprivileged ISA, section 2.2).
ghost use Rattle.std.specs.Prelude.{◌≡◌, ◌<◌};
ghost use Rattle.rv32_table.specs.Instr.{rd_field as rd_field_of, source_field};

/// The number of the register in rd, bits 11 to 7.
pub fn rd_field(word: u32) -> u8
    ensures field { result ≡ rd_field_of word }
    ensures register { result < 32 }
{
    ((word >> 7) & 0x1f) as u8
}

/// The number of the source register of a lane, 0, 1 or 2: rs1 (bits 19 to 15), rs2 (bits 24 to
/// 20), or rs3 (bits 31 to 27) of the R4-type (section 11.6).
pub fn rs_field(word: u32, lane: u8) -> u8
    requires { lane < 3 }
    ensures field { result ≡ source_field word lane }
    ensures register { result < 32 }
{
    match lane {
        0 => ((word >> 15) & 0x1f) as u8,
        1 => ((word >> 20) & 0x1f) as u8,
        _ => (word >> 27) as u8,
    }
}
