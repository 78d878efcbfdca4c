//! Words of 32 bits, made from shorter numbers.
ghost use Rattle.std.specs.Prelude.{◌≡◌, ◌<◌, ◌≤◌, ◌^◌};
ghost use Rattle.rv32_table.specs.Word.{sign_extended};

/// A number of `bits` bits, 1 to 32, as a word: its top bit, the sign, fills the bits above (RISC-V
/// Unprivileged ISA, section 2.3, and section 2.6 for loads).
pub fn sign_extend(value: u32, bits: u8) -> u32
    requires some { 0 < bits }
    requires most { bits ≤ 32 }
    requires fits { value < 2 ^ bits }
    ensures { result ≡ sign_extended bits value }
{
    if bits == 32 || value < 1 << (bits - 1) {
        value
    } else {
        value + (u32::MAX - (1 << bits) + 1)
    }
}
