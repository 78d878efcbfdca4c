//! The text of a run, with the smallest parameters, and of one cycle with the greatest. Lines are
//! joined by bars.
use std::alloc::{AllocError, Global};
use std::test::Fail;
use vcd_text::Writer;
use xif_base::Params;
use xif_signals::Bus;

const SMALLEST: Params = Params {
    num_rs: 2,
    id_width: 3,
    rfr_width: 32,
    rfw_width: 32,
    num_harts: 1,
    hartid_width: 1,
    dual_read: 0,
    dual_write: false,
    split: true,
    profile: 1,
};

const GREATEST: Params = Params {
    num_rs: 3,
    id_width: 12,
    rfr_width: 64,
    rfw_width: 64,
    num_harts: 4,
    hartid_width: 8,
    dual_read: 3,
    dual_write: true,
    split: true,
    profile: 1,
};

const IDLE: Bus = Bus {
    issue_valid: false,
    issue_ready: false,
    issue_hartid: 0,
    issue_id: 0,
    issue_instr: 0,
    issue_accept: false,
    issue_writeback: 0,
    issue_register_read: 0,
    register_valid: false,
    register_ready: false,
    register_hartid: 0,
    register_id: 0,
    register_rs0: 0,
    register_rs1: 0,
    register_rs2: 0,
    register_rs_valid: 0,
    commit_valid: false,
    commit_hartid: 0,
    commit_id: 0,
    commit_kill: false,
    result_valid: false,
    result_ready: false,
    result_hartid: 0,
    result_id: 0,
    result_data: 0,
    result_rd: 0,
    result_we: 0,
};

// The cycles of a program that offers three instructions and kills one.
const CYCLES: [(Bus, &str); 6] = [
    (
        IDLE,
        "#0|0!|1\"|0#|0$|0%|b0 &|b0 '|0(|0)|b0 *|0+|0,|0-|b0 .|b0 /|b0 0|b0 2|03|04|b0 5|06|07|08|09|b0 :|b0 ;|b0 <|0=|#5|1!|",
    ),
    (IDLE, "#10|0!|#15|1!|"),
    (
        Bus {
            issue_valid: true,
            issue_ready: true,
            issue_instr: 4747,
            issue_accept: true,
            issue_writeback: 1,
            issue_register_read: 1,
            ..IDLE
        },
        "#20|0!|1#|1$|b1001010001011 '|1(|1)|b1 *|#25|1!|",
    ),
    (
        Bus {
            register_valid: true,
            register_ready: true,
            register_rs_valid: 3,
            commit_valid: true,
            ..IDLE
        },
        "#30|0!|0#|0$|b0 '|0(|0)|b0 *|1+|1,|b11 2|13|#35|1!|",
    ),
    (
        Bus {
            issue_valid: true,
            issue_ready: true,
            issue_id: 1,
            issue_instr: 32779,
            issue_accept: true,
            issue_register_read: 1,
            result_valid: true,
            result_ready: true,
            result_rd: 5,
            result_we: 1,
            ..IDLE
        },
        "#40|0!|1#|1$|b1 &|b1000000000001011 '|1(|b1 *|0+|0,|b0 2|03|17|18|b101 <|1=|#45|1!|",
    ),
    (
        Bus {
            issue_valid: true,
            issue_ready: true,
            issue_id: 2,
            issue_instr: 32779,
            issue_accept: true,
            issue_register_read: 1,
            register_valid: true,
            register_ready: true,
            register_id: 1,
            register_rs0: 3,
            register_rs_valid: 3,
            commit_valid: true,
            commit_id: 1,
            commit_kill: true,
            ..IDLE
        },
        "#50|0!|b10 &|1+|1,|b1 .|b11 /|b11 2|13|b1 5|16|07|08|b0 <|0=|#55|1!|",
    ),
];

const FULL: Bus = Bus {
    issue_valid: true,
    issue_ready: true,
    issue_hartid: 255,
    issue_id: 4095,
    issue_instr: u32::MAX,
    issue_accept: true,
    issue_writeback: 3,
    issue_register_read: 63,
    register_valid: true,
    register_ready: true,
    register_hartid: 255,
    register_id: 4095,
    register_rs0: u64::MAX,
    register_rs1: u64::MAX,
    register_rs2: u64::MAX,
    register_rs_valid: 63,
    commit_valid: true,
    commit_hartid: 255,
    commit_id: 4095,
    commit_kill: true,
    result_valid: true,
    result_ready: true,
    result_hartid: 255,
    result_id: 4095,
    result_data: u64::MAX,
    result_rd: 31,
    result_we: 3,
};

const SMALLEST_HEADER: &str = "\
    $timescale 1 ns $end|$scope module xif $end|$var wire 1 ! clk $end|\
    $var wire 1 \" rst_n $end|$var wire 1 # issue_valid $end|$var wire 1 $ issue_ready $end|\
    $var wire 1 % issue_hartid $end|$var wire 3 & issue_id $end|\
    $var wire 32 ' issue_instr $end|$var wire 1 ( issue_accept $end|\
    $var wire 1 ) issue_writeback $end|$var wire 2 * issue_register_read $end|\
    $var wire 1 + register_valid $end|$var wire 1 , register_ready $end|\
    $var wire 1 - register_hartid $end|$var wire 3 . register_id $end|\
    $var wire 32 / register_rs0 $end|$var wire 32 0 register_rs1 $end|\
    $var wire 2 2 register_rs_valid $end|$var wire 1 3 commit_valid $end|\
    $var wire 1 4 commit_hartid $end|$var wire 3 5 commit_id $end|\
    $var wire 1 6 commit_kill $end|$var wire 1 7 result_valid $end|\
    $var wire 1 8 result_ready $end|$var wire 1 9 result_hartid $end|\
    $var wire 3 : result_id $end|$var wire 32 ; result_data $end|$var wire 5 < result_rd $end|\
    $var wire 1 = result_we $end|$upscope $end|$enddefinitions $end|\
    ";

const GREATEST_HEADER: &str = "\
    $timescale 1 ns $end|$scope module xif $end|$var wire 1 ! clk $end|\
    $var wire 1 \" rst_n $end|$var wire 1 # issue_valid $end|$var wire 1 $ issue_ready $end|\
    $var wire 8 % issue_hartid $end|$var wire 12 & issue_id $end|\
    $var wire 32 ' issue_instr $end|$var wire 1 ( issue_accept $end|\
    $var wire 2 ) issue_writeback $end|$var wire 6 * issue_register_read $end|\
    $var wire 1 + register_valid $end|$var wire 1 , register_ready $end|\
    $var wire 8 - register_hartid $end|$var wire 12 . register_id $end|\
    $var wire 64 / register_rs0 $end|$var wire 64 0 register_rs1 $end|\
    $var wire 64 1 register_rs2 $end|$var wire 6 2 register_rs_valid $end|\
    $var wire 1 3 commit_valid $end|$var wire 8 4 commit_hartid $end|\
    $var wire 12 5 commit_id $end|$var wire 1 6 commit_kill $end|\
    $var wire 1 7 result_valid $end|$var wire 1 8 result_ready $end|\
    $var wire 8 9 result_hartid $end|$var wire 12 : result_id $end|\
    $var wire 64 ; result_data $end|$var wire 5 < result_rd $end|$var wire 2 = result_we $end|\
    $upscope $end|$enddefinitions $end|\
    ";

const FULL_CYCLE: &str = "\
    #0|0!|1\"|1#|1$|b11111111 %|b111111111111 &|b11111111111111111111111111111111 '|1(|b11 )|\
    b111111 *|1+|1,|b11111111 -|b111111111111 .|\
    b1111111111111111111111111111111111111111111111111111111111111111 /|\
    b1111111111111111111111111111111111111111111111111111111111111111 0|\
    b1111111111111111111111111111111111111111111111111111111111111111 1|b111111 2|13|\
    b11111111 4|b111111111111 5|16|17|18|b11111111 9|b111111111111 :|\
    b1111111111111111111111111111111111111111111111111111111111111111 ;|b11111 <|b11 =|#5|1!|\
    ";

fn joined(alloc: Global, text: &[u8]) -> Result<Vec<u8>, AllocError> {
    text.iter()
        .map(|byte| if *byte == b'\n' { b'|' } else { *byte })
        .collect(alloc)
}

#[test]
fn the_text_of_a_run(rt: HostRuntime) -> Result<(), Fail> {
    let mut writer = Writer::new(&SMALLEST);
    let header = writer.header(rt.alloc())?;
    assert_eq!(rt;
        joined(rt.alloc(), &header)?.as_slice(),
        SMALLEST_HEADER.as_bytes()
    );
    for (bus, lines) in &CYCLES {
        let bus = bus.sample().known(&SMALLEST)?;
        let piece = writer.cycle(rt.alloc(), &bus)?;
        assert_eq!(rt; joined(rt.alloc(), &piece)?.as_slice(), lines.as_bytes());
    }
    let end = writer.end(rt.alloc())?;
    assert_eq!(rt; joined(rt.alloc(), &end)?.as_slice(), b"#60|0!|".as_slice());
    Ok(())
}

#[test]
fn the_greatest_values(rt: HostRuntime) -> Result<(), Fail> {
    let mut writer = Writer::new(&GREATEST);
    let header = writer.header(rt.alloc())?;
    assert_eq!(rt;
        joined(rt.alloc(), &header)?.as_slice(),
        GREATEST_HEADER.as_bytes()
    );
    let bus = FULL.sample().known(&GREATEST)?;
    let piece = writer.cycle(rt.alloc(), &bus)?;
    assert_eq!(rt;
        joined(rt.alloc(), &piece)?.as_slice(),
        FULL_CYCLE.as_bytes()
    );
    Ok(())
}
