//! Words as an assembler writes them, and values from another model.
use rv32_table::{
    Access, Instr, Kind, Next, access, alu, branch, decode, rd_field, rs_field, sign_extend,
};
use std::alloc::{AllocError, Global};
use std::test::Fail;

#[test]
fn words_are_decoded(rt: HostRuntime) -> Result<(), Fail> {
    let text = text_of_words(rt.alloc(), &WORDS)?;
    assert_eq!(rt; text.as_str(), INSTRUCTIONS);
    Ok(())
}

fn text_of_words(alloc: Global, words: &[u32]) -> Result<String, AllocError> {
    let mut text = String::new(alloc);
    for word in words {
        match decode(*word) {
            Some(instr) => write_instr(&mut text, *word, &instr)?,
            None => writeln!(text, "{word:08x} none")?,
        }
    }
    Ok(text)
}

/// The fields of an instruction, then kind, sources and target of one of its row with the registers
/// 1, 2 and 3, and the target with rd 0.
fn write_instr(text: &mut String, word: u32, instr: &Instr) -> Result<(), AllocError> {
    let Instr {
        row,
        rd,
        rs1,
        rs2,
        imm,
    } = *instr;
    write!(text, "{word:08x} {row:?} {rd} {rs1} {rs2} {imm:x}")?;
    write_uses(
        text,
        &Instr {
            rd: 1,
            rs1: 2,
            rs2: 3,
            ..*instr
        },
    )
}

fn write_uses(text: &mut String, instr: &Instr) -> Result<(), AllocError> {
    let (kind, sources, target) = (instr.kind(), instr.sources(), instr.target());
    let to_zero = Instr { rd: 0, ..*instr };
    writeln!(
        text,
        " {kind:?} {sources:?} {target:?} {:?}",
        to_zero.target()
    )
}

const WORDS: [u32; 60] = [
    0x8000_00b7,
    0xffff_ff97,
    0x8000_00ef,
    0x8003_02e7,
    0x8020_8063,
    0x7e41_9fe3,
    0x0062_c0e3,
    0xfe83_dfe3,
    0x00a4_e863,
    0x01ef_ff63,
    0xfff1_0083,
    0x7ff2_1183,
    0x0003_2283,
    0x0084_4383,
    0x8005_5483,
    0xfe11_0fa3,
    0x7e32_1fa3,
    0x81f0_2023,
    0xfff0_0093,
    0x7ff1_a113,
    0x8002_b213,
    0x0013_c313,
    0x5554_e413,
    0xaaa5_f513,
    0x0ff0_000f,
    0x01f1_1093,
    0x0002_5193,
    0x4113_5293,
    0x0031_00b3,
    0x4062_8233,
    0x0094_13b3,
    0x00c5_a533,
    0x00f7_36b3,
    0x0128_c833,
    0x015a_59b3,
    0x418b_db33,
    0x01bd_6cb3,
    0x01ee_fe33,
    0x0231_00b3,
    0x0262_9233,
    0x0294_23b3,
    0x02c5_b533,
    0x02f7_46b3,
    0x0328_d833,
    0x035a_69b3,
    0x03ff_7033,
    0x0000_0073,
    0x0010_0073,
    0x0000_0000,
    0xffff_ffff,
    0x0020_0073,
    0x0000_00f3,
    0x4000_1033,
    0x0200_1013,
    0x0000_2063,
    0x0000_3003,
    0x0000_3023,
    0x0000_1067,
    0x0000_100f,
    0x0600_0033,
];

const INSTRUCTIONS: &str = "\
800000b7 Lui 1 0 0 80000000 Alu (None, None) Some(1) None
ffffff97 Auipc 31 31 31 fffff000 Alu (None, None) Some(1) None
800000ef Jal 1 0 0 fff00000 Control (None, None) Some(1) None
800302e7 Jalr 5 6 0 fffff800 Control (Some(2), None) Some(1) None
80208063 Beq 0 1 2 fffff000 Control (Some(2), Some(3)) None None
7e419fe3 Bne 31 3 4 ffe Control (Some(2), Some(3)) None None
0062c0e3 Blt 1 5 6 800 Control (Some(2), Some(3)) None None
fe83dfe3 Bge 31 7 8 fffffffe Control (Some(2), Some(3)) None None
00a4e863 Bltu 16 9 10 10 Control (Some(2), Some(3)) None None
01efff63 Bgeu 30 31 30 1e Control (Some(2), Some(3)) None None
fff10083 Lb 1 2 31 ffffffff Load (Some(2), None) Some(1) None
7ff21183 Lh 3 4 31 7ff Load (Some(2), None) Some(1) None
00032283 Lw 5 6 0 0 Load (Some(2), None) Some(1) None
00844383 Lbu 7 8 8 8 Load (Some(2), None) Some(1) None
80055483 Lhu 9 10 0 fffff800 Load (Some(2), None) Some(1) None
fe110fa3 Sb 31 2 1 ffffffff Store (Some(2), Some(3)) None None
7e321fa3 Sh 31 4 3 7ff Store (Some(2), Some(3)) None None
81f02023 Sw 0 0 31 fffff800 Store (Some(2), Some(3)) None None
fff00093 Addi 1 0 31 ffffffff Alu (Some(2), None) Some(1) None
7ff1a113 Slti 2 3 31 7ff Alu (Some(2), None) Some(1) None
8002b213 Sltiu 4 5 0 fffff800 Alu (Some(2), None) Some(1) None
0013c313 Xori 6 7 1 1 Alu (Some(2), None) Some(1) None
5554e413 Ori 8 9 21 555 Alu (Some(2), None) Some(1) None
aaa5f513 Andi 10 11 10 fffffaaa Alu (Some(2), None) Some(1) None
0ff0000f Fence 0 0 31 0 Fence (None, None) None None
01f11093 Slli 1 2 31 0 Alu (Some(2), None) Some(1) None
00025193 Srli 3 4 0 0 Alu (Some(2), None) Some(1) None
41135293 Srai 5 6 17 0 Alu (Some(2), None) Some(1) None
003100b3 Add 1 2 3 0 Alu (Some(2), Some(3)) Some(1) None
40628233 Sub 4 5 6 0 Alu (Some(2), Some(3)) Some(1) None
009413b3 Sll 7 8 9 0 Alu (Some(2), Some(3)) Some(1) None
00c5a533 Slt 10 11 12 0 Alu (Some(2), Some(3)) Some(1) None
00f736b3 Sltu 13 14 15 0 Alu (Some(2), Some(3)) Some(1) None
0128c833 Xor 16 17 18 0 Alu (Some(2), Some(3)) Some(1) None
015a59b3 Srl 19 20 21 0 Alu (Some(2), Some(3)) Some(1) None
418bdb33 Sra 22 23 24 0 Alu (Some(2), Some(3)) Some(1) None
01bd6cb3 Or 25 26 27 0 Alu (Some(2), Some(3)) Some(1) None
01eefe33 And 28 29 30 0 Alu (Some(2), Some(3)) Some(1) None
023100b3 Mul 1 2 3 0 Alu (Some(2), Some(3)) Some(1) None
02629233 Mulh 4 5 6 0 Alu (Some(2), Some(3)) Some(1) None
029423b3 Mulhsu 7 8 9 0 Alu (Some(2), Some(3)) Some(1) None
02c5b533 Mulhu 10 11 12 0 Alu (Some(2), Some(3)) Some(1) None
02f746b3 Div 13 14 15 0 Alu (Some(2), Some(3)) Some(1) None
0328d833 Divu 16 17 18 0 Alu (Some(2), Some(3)) Some(1) None
035a69b3 Rem 19 20 21 0 Alu (Some(2), Some(3)) Some(1) None
03ff7033 Remu 0 30 31 0 Alu (Some(2), Some(3)) Some(1) None
00000073 Ecall 0 0 0 0 Stop (None, None) None None
00100073 Ebreak 0 0 1 0 Stop (None, None) None None
00000000 none
ffffffff none
00200073 none
000000f3 none
40001033 none
02001013 none
00002063 none
00003003 none
00003023 none
00001067 none
0000100f none
06000033 none
";

#[test]
fn fields_are_bits_of_a_word(rt: HostRuntime) {
    let word = 0xabcd_ef12;
    let lanes = [rs_field(word, 0), rs_field(word, 1), rs_field(word, 2)];
    assert_eq!(rt; (rd_field(word), lanes), (30, [27, 28, 21]));
    let extended = [
        sign_extend(0x800, 12),
        sign_extend(0x7ff, 12),
        sign_extend(word, 32),
    ];
    assert_eq!(rt; extended, [0xffff_f800, 0x7ff, word]);
}

#[test]
fn values_are_computed(rt: HostRuntime) {
    assert_eq!(rt; first_wrong(&VALUES), None);
    assert_eq!(rt; first_wrong(&PRODUCTS), None);
}

/// The first of the rows word, a, b, value in which the instruction has another value.
fn first_wrong(rows: &[[u32; 4]]) -> Option<[u32; 4]> {
    for row in rows {
        let [word, a, b, wanted] = *row;
        if value(word, a, b) != Some(wanted) {
            return Some(*row);
        }
    }
    None
}

fn value(word: u32, a: u32, b: u32) -> Option<u32> {
    let instr = decode(word)?;
    match instr.kind() {
        Kind::Alu => Some(alu(&instr, a, b, 0xffff_fffc)),
        _ => None,
    }
}

const VALUES: [[u32; 4]; 29] = [
    [0x8000_00b7, 0, 0, 0x8000_0000],
    [0xffff_ff97, 0, 0, 0xffff_effc],
    [0xfff0_0093, 0, 0, 0xffff_ffff],
    [0xfff0_0093, 0x8000_0000, 0, 0x7fff_ffff],
    [0x7ff1_a113, 0x8000_0000, 0, 1],
    [0x7ff1_a113, 2047, 0, 0],
    [0x8002_b213, 0x8000_0000, 0, 1],
    [0x8002_b213, 0xffff_ffff, 0, 0],
    [0x0013_c313, 0xffff_ffff, 0, 0xffff_fffe],
    [0x5554_e413, 240, 0, 1525],
    [0xaaa5_f513, 0xffff_ffff, 0, 0xffff_faaa],
    [0x01f1_1093, 0xffff_ffff, 0, 0x8000_0000],
    [0x0002_5193, 0x8000_0000, 0, 0x8000_0000],
    [0x4113_5293, 0x8000_0000, 0, 0xffff_c000],
    [0x4113_5293, 0x7fff_ffff, 0, 16383],
    [0x0031_00b3, 0xffff_ffff, 2, 1],
    [0x4062_8233, 1, 0xffff_ffff, 2],
    [0x0094_13b3, 0xffff_ffff, 33, 0xffff_fffe],
    [0x0094_13b3, 1, 31, 0x8000_0000],
    [0x00c5_a533, 0x8000_0000, 0x7fff_ffff, 1],
    [0x00c5_a533, 0x7fff_ffff, 0x8000_0000, 0],
    [0x00f7_36b3, 0x8000_0000, 0x7fff_ffff, 0],
    [0x00f7_36b3, 0x7fff_ffff, 0x8000_0000, 1],
    [0x0128_c833, 0xffff_ffff, 15, 0xffff_fff0],
    [0x015a_59b3, 0x8000_0000, 63, 1],
    [0x418b_db33, 0x8000_0000, 63, 0xffff_ffff],
    [0x418b_db33, 0x7fff_ffff, 1, 0x3fff_ffff],
    [0x01bd_6cb3, 0x8000_0000, 15, 0x8000_000f],
    [0x01ee_fe33, 0xffff_ffff, 15, 15],
];

/// Of the M extension.
const PRODUCTS: [[u32; 4]; 25] = [
    [0x0231_00b3, 0xffff_ffff, 0xffff_ffff, 1],
    [0x0231_00b3, 0x0001_0001, 0x0001_0001, 0x0002_0001],
    [0x0262_9233, 0xffff_ffff, 0xffff_ffff, 0],
    [0x0262_9233, 0x8000_0000, 0x8000_0000, 0x4000_0000],
    [0x0262_9233, 0x8000_0000, 0x7fff_ffff, 0xc000_0000],
    [0x0294_23b3, 0xffff_ffff, 0xffff_ffff, 0xffff_ffff],
    [0x0294_23b3, 0x8000_0000, 0x8000_0000, 0xc000_0000],
    [0x0294_23b3, 0x7fff_ffff, 0xffff_ffff, 0x7fff_fffe],
    [0x02c5_b533, 0xffff_ffff, 0xffff_ffff, 0xffff_fffe],
    [0x02c5_b533, 0x8000_0000, 0x8000_0000, 0x4000_0000],
    [0x02f7_46b3, 0x8000_0000, 0xffff_ffff, 0x8000_0000],
    [0x02f7_46b3, 7, 0, 0xffff_ffff],
    [0x02f7_46b3, 0xffff_fff9, 2, 0xffff_fffd],
    [0x02f7_46b3, 7, 0xffff_fffe, 0xffff_fffd],
    [0x02f7_46b3, 1, 0x8000_0000, 0],
    [0x0328_d833, 0x8000_0000, 0xffff_ffff, 0],
    [0x0328_d833, 7, 0, 0xffff_ffff],
    [0x0328_d833, 0xffff_fff9, 2, 0x7fff_fffc],
    [0x035a_69b3, 0x8000_0000, 0xffff_ffff, 0],
    [0x035a_69b3, 0xffff_fff9, 0, 0xffff_fff9],
    [0x035a_69b3, 0xffff_fff9, 2, 0xffff_ffff],
    [0x035a_69b3, 7, 0xffff_fffe, 1],
    [0x03ff_7033, 0x8000_0000, 0xffff_ffff, 0x8000_0000],
    [0x03ff_7033, 7, 0, 7],
    [0x03ff_7033, 0xffff_fff9, 2, 1],
];

#[test]
fn branches_and_accesses_go_where_they_say(rt: HostRuntime) -> Result<(), Fail> {
    let text = text_of_targets(rt.alloc())?;
    assert_eq!(rt; text.as_str(), TARGETS);
    Ok(())
}

/// For each of the rows word, a, b, pc what comes next, and for each word of a load or store its
/// access.
fn text_of_targets(alloc: Global) -> Result<String, AllocError> {
    let mut text = String::new(alloc);
    for [word, a, b, pc] in BRANCHES {
        write_next(&mut text, word, a, b, pc)?;
    }
    for word in MEMORY_WORDS {
        let bytes = bytes(word);
        writeln!(text, "{word:08x} {bytes:?}")?;
    }
    Ok(text)
}

fn write_next(text: &mut String, word: u32, a: u32, b: u32, pc: u32) -> Result<(), AllocError> {
    let after = next(word, a, b, pc);
    writeln!(text, "{word:08x} {a:x} {b:x} {pc:x} {after:?}")
}

fn next(word: u32, a: u32, b: u32, pc: u32) -> Option<Next> {
    let instr = decode(word)?;
    match instr.kind() {
        Kind::Control => Some(branch(&instr, a, b, pc)),
        _ => None,
    }
}

fn bytes(word: u32) -> Option<Access> {
    let instr = decode(word)?;
    match instr.kind() {
        Kind::Load | Kind::Store => Some(access(&instr, 0x800)),
        _ => None,
    }
}

const BRANCHES: [[u32; 4]; 15] = [
    [0x8000_00ef, 0, 0, 16],
    [0x8003_02e7, 2053, 0, 0],
    [0x8003_02e7, 2051, 0, 0],
    [0x8020_8063, 7, 7, 8192],
    [0x8020_8063, 7, 8, 0xffff_fffc],
    [0x7e41_9fe3, 7, 8, 0],
    [0x7e41_9fe3, 7, 7, 2],
    [0x0062_c0e3, 0x8000_0000, 0x7fff_ffff, 0],
    [0x0062_c0e3, 0x7fff_ffff, 0x8000_0000, 0],
    [0xfe83_dfe3, 7, 7, 2],
    [0xfe83_dfe3, 0x8000_0000, 0x7fff_ffff, 0],
    [0x00a4_e863, 0x7fff_ffff, 0x8000_0000, 0],
    [0x00a4_e863, 0x8000_0000, 0x7fff_ffff, 0],
    [0x01ef_ff63, 7, 7, 0],
    [0x01ef_ff63, 0x7fff_ffff, 0x8000_0000, 0],
];

const MEMORY_WORDS: [u32; 8] = [
    0xfff1_0083,
    0x7ff2_1183,
    0x0003_2283,
    0x0084_4383,
    0x8005_5483,
    0xfe11_0fa3,
    0x7e32_1fa3,
    0x81f0_2023,
];

const TARGETS: &str = "\
800000ef 0 0 10 Some(Go(4293918736))
800302e7 805 0 0 Some(Go(4))
800302e7 803 0 0 Some(Misaligned(2))
80208063 7 7 2000 Some(Go(4096))
80208063 7 8 fffffffc Some(Go(0))
7e419fe3 7 8 0 Some(Misaligned(4094))
7e419fe3 7 7 2 Some(Go(6))
0062c0e3 80000000 7fffffff 0 Some(Go(2048))
0062c0e3 7fffffff 80000000 0 Some(Go(4))
fe83dfe3 7 7 2 Some(Go(0))
fe83dfe3 80000000 7fffffff 0 Some(Go(4))
00a4e863 7fffffff 80000000 0 Some(Go(16))
00a4e863 80000000 7fffffff 0 Some(Go(4))
01efff63 7 7 0 Some(Misaligned(30))
01efff63 7fffffff 80000000 0 Some(Go(4))
fff10083 Some(Access { addr: 2047, width: 1, signed: true })
7ff21183 Some(Access { addr: 4095, width: 2, signed: true })
00032283 Some(Access { addr: 2048, width: 4, signed: false })
00844383 Some(Access { addr: 2056, width: 1, signed: false })
80055483 Some(Access { addr: 0, width: 2, signed: false })
fe110fa3 Some(Access { addr: 2047, width: 1, signed: false })
7e321fa3 Some(Access { addr: 4095, width: 2, signed: false })
81f02023 Some(Access { addr: 0, width: 4, signed: false })
";
