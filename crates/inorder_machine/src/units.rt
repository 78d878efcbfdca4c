//! What a word that a unit takes reads, and what its result writes.
ghost use Rattle.std.specs.Prelude.{◌≡◌, ◌<◌, ◌%◌, true};
ghost use Rattle.xif_base.specs.Params.{IsInRange};
ghost use Rattle.rv32_table.specs.Instr.{source_field};
ghost use Rattle.inorder_machine.specs.Machine.{register_in};
ghost use Rattle.inorder_machine.specs.Units.{is_read, half_register, half_of, lane_of, lane_values, unit_write, has_flag};
ghost use Rattle.inorder_machine.specs.Lines.{IsWrite};

use crate::line::Write;
use rv32_table::rs_field;
use xif_base::{Params, ReadFlags, WriteFlags};

/// A half of a lane, 32 bits.
#[derive(Clone, Copy, Debug, PartialEq, Eq)]
pub enum Half {
    /// It carries the register of the lane's field.
    Low,
    /// It carries the odd register behind that.
    High,
}

/// Whether a half of a lane is among those that an instruction reads. The lane is 0, 1 or 2, and
/// one from X_NUM_RS on is never read.
pub fn is_read(params: &Params, flags: ReadFlags, lane: u8, half: Half) -> bool
    requires { IsInRange params.now }
    ensures { result ≡ is_read params.now flags.0 lane half }
{
    if lane >= params.num_rs {
        return false;
    }
    let bit = match half {
        Half::Low => Some(ReadFlags::even_bit(params, lane)),
        Half::High => ReadFlags::odd_bit(params, lane),
    };
    match bit {
        Some(bit) => flags.bits() >> bit & 1 == 1,
        None => false,
    }
}

/// The number of the register that a half of a lane, 0, 1 or 2, carries to a word: `None` behind
/// x0, where the half is 0. Behind x31 it is 32, which is no register.
pub fn half_register(word: u32, lane: u8, half: Half) -> Option<u8>
    requires { lane < 3 }
    ensures { result ≡ half_register (source_field word lane) half }
{
    let field = rs_field(word, lane);
    match half {
        Half::Low => Some(field),
        Half::High => if field == 0 { None } else { Some(field + 1) },
    }
}

/// What the lanes carry to a word that reads these halves: each half that is read its register, by
/// the numbers x0 to x31, and each other half 0.
pub fn lane_values(params: &Params, registers: &[u32; 32], word: u32, flags: ReadFlags) -> [u64; 3]
    requires { IsInRange params.now }
    ensures { result ≡ lane_values params.now (register_in registers.now) word flags.0 }
{
    [
        lane(params, registers, word, flags, 0),
        lane(params, registers, word, flags, 1),
        lane(params, registers, word, flags, 2),
    ]
}

fn lane(params: &Params, registers: &[u32; 32], word: u32, flags: ReadFlags, lane: u8) -> u64
    requires params { IsInRange params.now }
    requires lane { lane < 3 }
    ensures { result ≡ lane_of params.now (register_in registers.now) word flags.0 lane }
{
    let low = half_value(params, registers, word, flags, lane, Half::Low);
    let high = half_value(params, registers, word, flags, lane, Half::High);
    u64::from(low) + (u64::from(high) << 32)
}

fn half_value(
    params: &Params,
    registers: &[u32; 32],
    word: u32,
    flags: ReadFlags,
    lane: u8,
    half: Half,
) -> u32
    requires params { IsInRange params.now }
    requires lane { lane < 3 }
    ensures { result ≡ half_of params.now (register_in registers.now) word flags.0 lane half }
{
    if !is_read(params, flags, lane, half) {
        return 0;
    }
    match half_register(word, lane, half) {
        Some(register) => read(registers, register),
        None => 0,
    }
}

/// The value of a register. x0 reads 0 (RISC-V Unprivileged ISA, section 2.1).
fn read(registers: &[u32; 32], register: u8) -> u32
    ensures { result ≡ register_in registers.now register }
{
    if register == 0 {
        return 0;
    }
    registers.get(register as usize).copied().unwrap_or(0)
}

/// The write of a result, 64 bits, to the register `rd` of a word, by the two flags of its
/// writeback one by one: with the first rd gets the low half, and with the second the register
/// behind it, the odd one of a pair, gets the high half. Where rd is x0 neither is written.
pub fn unit_write(rd: u8, flags: WriteFlags, value: u64) -> Write
    requires { rd < 32 }
    ensures write { result ≡ unit_write rd flags.0 value }

    // It names registers of the file if a pair has an even rd.
    ensures names { (has_flag flags.0 1 ≡ true → rd % 2 ≡ 0) → IsWrite result }
{
    if rd == 0 {
        return Write::None;
    }
    let low = (value & 0xffff_ffff) as u32;
    let high = (value >> 32) as u32;
    match (flags.bits() & 1 == 1, flags.bits() >> 1 & 1 == 1) {
        (false, false) => Write::None,
        (true, false) => Write::One { rd, value: low },
        (false, true) => Write::One {
            rd: rd + 1,
            value: high,
        },
        (true, true) => Write::Pair { rd, low, high },
    }
}
