//! Programs of a few words, with values worked out from the manual and by an independent model.
ghost use Rattle.std.specs.Prelude.{IfOk};
ghost use Rattle.coproc_config.specs.State.{IsStateOf};

use coproc_config::{Entry, Op, Set, UnitState};
use inorder_machine::{
    Advanced, Half, Machine, Retire, Stepped, StopCause, Store, Write, execute, half_register,
    is_read, lane_values, unit_write,
};
use rv32_table::decode;
use std::alloc::Global;
use std::process::Abort;
use std::test::Fail;
use xif_base::{NoMemory, Params, ReadFlags, WriteFlags};
use xif_image::{Image, Memory};

const PARAMS: Params = Params {
    num_rs: 2,
    id_width: 3,
    rfr_width: 64,
    rfw_width: 64,
    num_harts: 1,
    hartid_width: 1,
    dual_read: 1,
    dual_write: true,
    split: true,
    profile: 1,
};

/// One unit with an accumulator and four entries.
fn four_entries(rt: &impl Abort, alloc: Global) -> Result<Set, NoMemory> {
    let mut set = Set::new(alloc);
    set.unit(1)?;
    for (matched, op) in [
        (0x0000_000b, Op::AccAdd),
        (0x0000_200b, Op::AccReadLow),
        (0x0000_300b, Op::PairMul),
        (0x0000_400b, Op::PairSum),
    ] {
        assert!(rt; set.len() > 0);
        set.entry(Entry {
            mask: 0x0000_707f,
            matched,
            op,
            acc: 0,
            low: 0,
            len: 32,
        })?;
    }
    Ok(set)
}

/// A machine that begins at these words, at address 0.
fn machine(alloc: Global, set: &Set, words: &[u32; 6]) -> Result<Machine, Fail>
    ensures { IfOk result (λ machine. IsStateOf set.now machine.units) }
{
    let mut bytes = Vec::new(alloc);
    for word in words {
        bytes.extend_from_slice(&word.to_le_bytes())?;
    }
    let mut memory = Memory::new(alloc, 0, 24)?;
    memory.place(&Image::raw(alloc, &bytes, 0, 0, 24)?);
    Ok(Machine::new(memory, 0, UnitState::new(alloc, set)?))
}

#[test]
fn steps_through_stores_and_units(rt: HostRuntime) -> Result<(), Fail> {
    let set = four_entries(&rt, rt.alloc())?;
    assert!(rt; set.check().is_ok() && PARAMS.check().is_ok());
    // addi x1, x0, 291; sb x1, 21(x0); acc_add x1; acc_read_low x5; ecall
    let words = [
        0x1230_0093,
        0x0010_0aa3,
        0x0000_800b,
        0x0000_228b,
        0x0000_0073,
        0,
    ];
    let mut machine = machine(rt.alloc(), &set, &words)?;
    let first = Retire {
        pc: 0,
        word: 0x1230_0093,
        next: 4,
        write: Write::One {
            rd: 1,
            value: 0x123,
        },
        store: None,
    };
    let second = Retire {
        pc: 4,
        word: 0x0010_0aa3,
        next: 8,
        write: Write::None,
        store: Some(Store {
            addr: 21,
            width: 1,
            value: 0x23,
        }),
    };
    assert_eq!(rt; machine.step(&set, &PARAMS), Stepped::Retired(first));
    assert_eq!(rt; machine.step(&set, &PARAMS), Stepped::Retired(second));
    let rest = Advanced {
        retired: 2,
        stop: Some(StopCause::Ecall),
    };
    assert_eq!(rt; machine.advance(&set, &PARAMS, 9), rest);
    assert_eq!(rt; (machine.pc(), machine.register(5)), (16, 0x123));
    assert_eq!(rt; machine.memory().word(20), Some(0x2300));
    Ok(())
}

#[test]
fn reads_and_writes_pairs(rt: HostRuntime) -> Result<(), Fail> {
    let set = four_entries(&rt, rt.alloc())?;
    assert!(rt; set.check().is_ok() && PARAMS.check().is_ok());
    for (words, retired, stop, registers) in [
        // pair_sum of x2 and x3, and then of an odd field
        (
            [0x0050_0113, 0x0060_0193, 0x0001_428b, 0x0001_c28b, 0x73, 0],
            3,
            StopCause::Illegal,
            [0, 0, 5, 6, 0, 11],
        ),
        // pair_mul to the pair at 0, pair_sum of the pair at 0
        (
            [
                0x0090_0093,
                0x0050_0113,
                0x0060_0193,
                0x0031_300b,
                0x0000_428b,
                0x73,
            ],
            5,
            StopCause::Ecall,
            [0, 9, 5, 6, 0, 0],
        ),
        // pair_mul of x2 and x3 to the pair at 4
        (
            [0xfff0_0113, 0x0020_0193, 0x0031_320b, 0x73, 0, 0],
            3,
            StopCause::Ecall,
            [0, 0, 0xffff_ffff, 2, 0xffff_fffe, 1],
        ),
    ] {
        let mut machine = machine(rt.alloc(), &set, &words)?;
        let stop = Some(stop);
        assert_eq!(rt;
            machine.advance(&set, &PARAMS, 9),
            Advanced { retired, stop }
        );
        assert_eq!(rt; machine.registers()[..6].iter().eq(registers.iter()), true);
    }
    Ok(())
}

#[test]
fn executes_beside_a_machine(rt: HostRuntime) -> Result<(), Fail> {
    let memory = Memory::new(rt.alloc(), 0, 8)?;
    let line = Retire {
        pc: 12,
        word: LW,
        next: 16,
        write: Write::One { rd: 2, value: 0 },
        store: None,
    };
    assert_eq!(rt; executed(&memory, 0), Some(Stepped::Retired(line)));
    let outside = Stepped::Stop(StopCause::LoadOutside);
    assert_eq!(rt; executed(&memory, 4), Some(outside));
    Ok(())
}

/// lw x2, 4(x1)
const LW: u32 = 0x0040_a103;

fn executed(memory: &Memory, a: u32) -> Option<Stepped> {
    let instr = decode(LW)?;
    Some(execute(memory, 12, LW, &instr, a, 0))
}

#[test]
fn carries_and_writes_halves(rt: HostRuntime) {
    assert!(rt; PARAMS.check().is_ok());
    let mut registers = [0; 32];
    registers[2] = 5;
    registers[3] = 6;
    registers[4] = 7;
    // x2 and x3 on lane 0, and x4 on lane 1, which isn't read
    let word = 0x0041_428b;
    let (Some(flags), Some(pair)) = (ReadFlags::from_bits(3), WriteFlags::from_bits(3)) else {
        return;
    };
    assert_eq!(rt;
        lane_values(&PARAMS, &registers, word, flags),
        [0x6_0000_0005, 0, 0]
    );
    assert_eq!(rt; is_read(&PARAMS, flags, 0, Half::High), true);
    assert_eq!(rt; half_register(word, 0, Half::High), Some(3));
    let write = Write::Pair {
        rd: 4,
        low: 1,
        high: 2,
    };
    assert_eq!(rt; unit_write(4, pair, 0x2_0000_0001), write);
}
