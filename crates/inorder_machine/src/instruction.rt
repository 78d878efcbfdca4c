//! What the instructions of RV32IM do.
ghost use Rattle.std.specs.Prelude.{◌≡◌, ◌<◌, ◌*◌, ◌^◌, ℕ, false};
ghost use Rattle.rv32_table.specs.Instr.{kind_of, NamesRegisters};
ghost use Rattle.xif_image.specs.Region.{IsWidth};
ghost use Rattle.inorder_machine.specs.Execute.{At, executed, line_of, write_to, store_of, cause_of, extended};
ghost use Rattle.inorder_machine.specs.Lines.{IsLine, IfRetired, Executes};

use crate::line::{Retire, Stepped, Store, Write};
use crate::stop::StopCause;
use rv32_table::{Instr, Kind, Next, Row, access, alu, branch, sign_extend};
use xif_image::{MemFault, Memory};

/// Executes the instruction `instr`, which is the word `word` at the address `pc`, on the values
/// `a` of rs1 and `b` of rs2. The memory stays: the line of one that retires says what is written
/// there and to the registers, and what comes next.
pub fn execute(memory: &Memory, pc: u32, word: u32, instr: &Instr, a: u32, b: u32) -> Stepped
    ensures outcome { let at : At = record { pc = pc; word = word } in
        result ≡ executed memory.now at instr.now a b }

    // Its line names registers other than x0, and its store can be done.
    ensures line { NamesRegisters instr.now → IfRetired result (IsLine memory.now) }
{
    match instr.kind() {
        Kind::Alu => compute(memory, pc, word, instr, a, b),
        Kind::Load => load(memory, pc, word, instr, a),
        Kind::Store => store(memory, pc, word, instr, a, b),
        Kind::Control => transfer(memory, pc, word, instr, a, b),
        Kind::Fence => Stepped::Retired(line_of(pc, word, Write::None, None)),
        Kind::Stop => Stepped::Stop(cause_of(instr.row)),
    }
}

fn compute(memory: &Memory, pc: u32, word: u32, instr: &Instr, a: u32, b: u32) -> Stepped
    requires { kind_of instr.now ≡ Kind.Alu }
    ensures { Executes memory.now (record { pc = pc; word = word }) instr.now a b result }
{
    let write = write_to(instr.target(), alu(instr, a, b, pc));
    Stepped::Retired(line_of(pc, word, write, None))
}

fn load(memory: &Memory, pc: u32, word: u32, instr: &Instr, a: u32) -> Stepped
    requires { kind_of instr.now ≡ Kind.Load }
    ensures { (b : ℕ) → Executes memory.now (record { pc = pc; word = word }) instr.now a b result }
{
    let access = access(instr, a);
    match memory.load(access.addr, access.width) {
        Ok(value) => {
            let value = extended(access.width, access.signed, value);
            let write = write_to(instr.target(), value);
            Stepped::Retired(line_of(pc, word, write, None))
        }
        Err(MemFault::Outside) => Stepped::Stop(StopCause::LoadOutside),
    }
}

/// A store can be done if and only if a load of the same bytes can.
fn store(memory: &Memory, pc: u32, word: u32, instr: &Instr, a: u32, b: u32) -> Stepped
    requires { kind_of instr.now ≡ Kind.Store }
    ensures { Executes memory.now (record { pc = pc; word = word }) instr.now a b result }
{
    let access = access(instr, a);
    match memory.load(access.addr, access.width) {
        Ok(_) => {
            let store = store_of(access.addr, access.width, b);
            Stepped::Retired(line_of(pc, word, Write::None, Some(store)))
        }
        Err(MemFault::Outside) => Stepped::Stop(StopCause::StoreOutside),
    }
}

fn transfer(memory: &Memory, pc: u32, word: u32, instr: &Instr, a: u32, b: u32) -> Stepped
    requires { kind_of instr.now ≡ Kind.Control }
    ensures { Executes memory.now (record { pc = pc; word = word }) instr.now a b result }
{
    match branch(instr, a, b, pc) {
        Next::Go(next) => {
            let write = write_to(instr.target(), pc.wrapping_add(4));
            Stepped::Retired(Retire {
                next,
                ..line_of(pc, word, write, None)
            })
        }
        Next::Misaligned(_) => Stepped::Stop(StopCause::TargetMisaligned),
    }
}

/// The line of an instruction that is followed by the one behind it.
pub(crate) fn line_of(pc: u32, word: u32, write: Write, store: Option<Store>) -> Retire
    ensures { result ≡ line_of (record { pc = pc; word = word }) write store }
{
    Retire {
        pc,
        word,
        next: pc.wrapping_add(4),
        write,
        store,
    }
}

fn write_to(target: Option<u8>, value: u32) -> Write
    ensures { result ≡ write_to target value }
{
    match target {
        Some(rd) => Write::One { rd, value },
        None => Write::None,
    }
}

/// A loaded number as a word.
fn extended(width: u8, signed: bool, value: u32) -> u32
    requires width { IsWidth width }
    requires fits { value < 2 ^ (8 * width) }
    ensures { result ≡ extended width signed value }
{
    if signed {
        sign_extend(value, 8 * width)
    } else {
        value
    }
}

fn store_of(addr: u32, width: u8, value: u32) -> Store
    requires { IsWidth width }
    ensures { result ≡ store_of addr width value }
{
    let value = match width {
        1 => value & 0xff,
        2 => value & 0xffff,
        _ => value,
    };
    Store { addr, width, value }
}

fn cause_of(row: Row) -> StopCause
    ensures { result ≡ cause_of row }
{
    match row {
        Row::Ebreak => StopCause::Ebreak,
        _ => StopCause::Ecall,
    }
}
