//! The table of the signals, the channels of a bus, and which rule is reported where bits of a bus
//! are unknown, as texts.
ghost use Rattle.std.specs.Prelude.{◌≢◌, ◌≤◌};
ghost use Rattle.xif_base.specs.Params.{IsInRange};
ghost use Rattle.xif_signals.specs.declared.signal.Signal.TheVariants.{Clk};

use std::alloc::{AllocError, Global};
use std::test::Fail;
use xif_base::{Key, Params};
use xif_signals::{Bus, Channel, CopOut, CpuIn, CpuOut, Quad, Sample, Signal, Unknown};

fn smallest() -> Params
    ensures { IsInRange result }
{
    Params {
        num_rs: 2,
        id_width: 3,
        rfr_width: 32,
        rfw_width: 32,
        num_harts: 1,
        hartid_width: 1,
        dual_read: 0,
        dual_write: false,
        split: false,
        profile: 1,
    }
}

/// The greatest parameters, but for X_DUALREAD.
fn greatest(dual_read: u8) -> Params
    requires { dual_read ≤ 3 }
    ensures { IsInRange result }
{
    Params {
        num_rs: 3,
        id_width: 12,
        rfr_width: 64,
        rfw_width: 64,
        num_harts: 4,
        hartid_width: 8,
        dual_read,
        dual_write: true,
        split: true,
        profile: 1,
    }
}

#[test]
fn the_table_of_the_signals(rt: HostRuntime) -> Result<(), Fail> {
    let text = text_of_table(rt.alloc())?;
    assert_eq!(rt; text.as_str(), TABLE);
    Ok(())
}

fn text_of_table(alloc: Global) -> Result<String, AllocError> {
    let mut text = String::new(alloc);
    for signal in Signal::all() {
        write_line(&mut text, signal)?;
    }
    Ok(text)
}

/// A line of the table: number, code, name, what Debug prints, and the widths under the smallest
/// and the greatest parameters.
fn write_line(text: &mut String, signal: Signal) -> Result<(), AllocError> {
    let (number, code, name) = (signal.number(), char::from(signal.code()), signal.name());
    let least = signal.width(&smallest());
    let most = signal.width(&greatest(3));
    writeln!(text, "{number} {code} {name} {signal:?} {least} {most}")
}

const TABLE: &str = "\
0 ! clk clk 1 1
1 \" rst_n rst_n 1 1
2 # issue_valid issue_valid 1 1
3 $ issue_ready issue_ready 1 1
4 % issue_hartid issue_hartid 1 8
5 & issue_id issue_id 3 12
6 ' issue_instr issue_instr 32 32
7 ( issue_accept issue_accept 1 1
8 ) issue_writeback issue_writeback 1 2
9 * issue_register_read issue_register_read 2 6
10 + register_valid register_valid 1 1
11 , register_ready register_ready 1 1
12 - register_hartid register_hartid 1 8
13 . register_id register_id 3 12
14 / register_rs0 register_rs0 32 64
15 0 register_rs1 register_rs1 32 64
16 1 register_rs2 register_rs2 0 64
17 2 register_rs_valid register_rs_valid 2 6
18 3 commit_valid commit_valid 1 1
19 4 commit_hartid commit_hartid 1 8
20 5 commit_id commit_id 3 12
21 6 commit_kill commit_kill 1 1
22 7 result_valid result_valid 1 1
23 8 result_ready result_ready 1 1
24 9 result_hartid result_hartid 1 8
25 : result_id result_id 3 12
26 ; result_data result_data 32 64
27 < result_rd result_rd 5 5
28 = result_we result_we 1 2
";

/// The valid and the key of each channel, the first channel that isn't valid, and whether the cycle
/// is in a session.
#[test]
fn the_channels_of_a_bus(rt: HostRuntime) -> Result<(), Fail> {
    let text = text_of_channels(rt.alloc(), &CASES[1])?;
    assert_eq!(rt; text.as_str(), CHANNELS);
    Ok(())
}

fn text_of_channels(alloc: Global, case: &Case) -> Result<String, AllocError> {
    let mut text = String::new(alloc);
    let bus = Bus {
        issue_valid: true,
        ..bus_of(case)
    };
    for channel in [
        Channel::Issue,
        Channel::Register,
        Channel::Commit,
        Channel::Result,
    ] {
        let Key { hart, id } = bus.key(channel);
        writeln!(text, "{channel:?} {} {hart} {id}", bus.is_valid(channel))?;
    }
    let first = Channel::first_failing(|channel| bus.is_valid(channel));
    let is_in_session = bus.sample().is_in_session(&params_of(case));
    writeln!(text, "{first:?} {is_in_session}")?;
    Ok(text)
}

const CHANNELS: &str = "\
Issue true 3 2748
Register false 2 4077
Commit false 1 291
Result false 4 1110
Some(Register) true
";

/// What the rules look at in a bus, and X_DUALREAD: with 0 the parameters are the smallest.
struct Case {
    name: &'static str,
    /// The valids, the readies, and issue_accept.
    valid: bool,
    ready: bool,
    accept: bool,
    /// register_rs_valid and result_we.
    rs_valid: u8,
    we: u8,
    dual_read: u8,
}

const CASES: [Case; 5] = [
    Case {
        name: "whole",
        valid: true,
        ready: true,
        accept: true,
        rs_valid: 0b11_1111,
        we: 0b11,
        dual_read: 3,
    },
    Case {
        name: "idle",
        valid: false,
        ready: true,
        accept: true,
        rs_valid: 0b11_1111,
        we: 0b11,
        dual_read: 3,
    },
    // Lane 2 has its odd flag alone, and the others their even one.
    Case {
        name: "waiting",
        valid: true,
        ready: false,
        accept: true,
        rs_valid: 0b10_0101,
        we: 0b01,
        dual_read: 3,
    },
    // Flag 1 is the odd one of lane 0, flag 2 that of lane 1, and flag 3 that of lane 2.
    Case {
        name: "refused",
        valid: true,
        ready: true,
        accept: false,
        rs_valid: 0b1010,
        we: 0b10,
        dual_read: 1,
    },
    // Two lanes of 32 bits, and a result that writes nothing.
    Case {
        name: "narrow",
        valid: true,
        ready: true,
        accept: true,
        rs_valid: 0b11_1111,
        we: 0,
        dual_read: 0,
    },
];

fn params_of(case: &Case) -> Params
    ensures { IsInRange result }
{
    if case.dual_read == 0 {
        smallest()
    } else {
        greatest(case.dual_read.min(3))
    }
}

fn bus_of(case: &Case) -> Bus {
    let cpu = CpuOut {
        issue_valid: case.valid,
        issue_hartid: 3,
        issue_id: 0xabc,
        issue_instr: 0x89ab_cdef,
        register_valid: case.valid,
        register_hartid: 2,
        register_id: 0xfed,
        register_rs0: 0x0123_4567_89ab_cdef,
        register_rs1: 0xffff_ffff_ffff_ffff,
        register_rs2: 0x8000_0001_8000_0001,
        register_rs_valid: case.rs_valid,
        commit_valid: case.valid,
        commit_hartid: 1,
        commit_id: 0x123,
        commit_kill: true,
    };
    let cop = CopOut {
        issue_ready: case.ready,
        issue_accept: case.accept,
        issue_writeback: 0b11,
        issue_register_read: 0b10_1010,
        register_ready: case.ready,
        result_valid: case.valid,
        result_hartid: 4,
        result_id: 0x456,
        result_data: 0xfedc_ba98_7654_3210,
        result_rd: 30,
        result_we: case.we,
    };
    let input = CpuIn {
        result_ready: case.ready,
    };
    Bus::join(&cpu, &cop, &input)
}

#[test]
fn each_part_of_the_rules_fails_alone(rt: HostRuntime) -> Result<(), Fail> {
    let text = text_of_cases(rt.alloc())?;
    assert_eq!(rt; text.as_str(), REPORTED);
    Ok(())
}

fn text_of_cases(alloc: Global) -> Result<String, AllocError> {
    let mut text = String::new(alloc);
    for case in &CASES {
        write_case(&mut text, case)?;
    }
    write_reported_in_turn(&mut text)?;
    Ok(text)
}

/// What the bus is known as, and what is reported of it.
fn write_case(text: &mut String, case: &Case) -> Result<(), AllocError> {
    let bus = bus_of(case);
    let params = params_of(case);
    writeln!(text, "{}: {:?}", case.name, bus.sample().known(&params))?;
    write_reported(text, &bus, &params)
}

/// A line for each half of a signal that counts: what is reported where that half alone is unknown.
fn write_reported(text: &mut String, bus: &Bus, params: &Params) -> Result<(), AllocError>
    requires { IsInRange params.now }
{
    for signal in Signal::all() {
        if signal != Signal::Clk {
            report(text, &mut bus.sample(), signal, LOW, params)?;
            report(text, &mut bus.sample(), signal, HIGH, params)?;
        }
    }
    Ok(())
}

const LOW: (&str, u64) = ("low", 0xffff_ffff);

const HIGH: (&str, u64) = ("high", 0xffff_ffff_0000_0000);

/// What is reported where a half of a signal is unknown.
fn report(
    text: &mut String,
    sample: &mut Sample,
    signal: Signal,
    half: (&str, u64),
    params: &Params,
) -> Result<(), AllocError>
    requires signal { signal ≢ Clk }
    requires params { IsInRange params.now }
{
    let (half, unknown) = half;
    let value = sample.get(signal).value;
    sample.set(signal, Quad { value, unknown });
    if let Err(Unknown { rule, channel }) = sample.known(params) {
        writeln!(text, "{rule:?} {channel:?} {} {half}", signal.name())?;
    }
    Ok(())
}

/// The first rule and its first channel, while more and more is unknown.
fn write_reported_in_turn(text: &mut String) -> Result<(), AllocError> {
    let mut sample = bus_of(&CASES[0]).sample();
    for signal in [
        Signal::ResultId,
        Signal::RegisterId,
        Signal::IssueId,
        Signal::ResultReady,
        Signal::RegisterReady,
    ] {
        if signal != Signal::Clk {
            report(text, &mut sample, signal, LOW, &greatest(3))?;
        }
    }
    Ok(())
}

const REPORTED: &str = "\
whole: Ok(Bus { issue_valid: true, issue_ready: true, issue_hartid: 3, issue_id: 2748, issue_instr: 2309737967, issue_accept: true, issue_writeback: 3, issue_register_read: 42, register_valid: true, register_ready: true, register_hartid: 2, register_id: 4077, register_rs0: 81985529216486895, register_rs1: 18446744073709551615, register_rs2: 9223372043297226753, register_rs_valid: 63, commit_valid: true, commit_hartid: 1, commit_id: 291, commit_kill: true, result_valid: true, result_ready: true, result_hartid: 4, result_id: 1110, result_data: 18364758544493064720, result_rd: 30, result_we: 3 })
K1 Issue issue_valid low
K1 Issue issue_ready low
K2 Issue issue_hartid low
K2 Issue issue_id low
K2 Issue issue_instr low
K2 Issue issue_accept low
K2 Issue issue_writeback low
K2 Issue issue_register_read low
K1 Register register_valid low
K1 Register register_ready low
K2 Register register_hartid low
K2 Register register_id low
K2 Register register_rs0 low
K2 Register register_rs0 high
K2 Register register_rs1 low
K2 Register register_rs1 high
K2 Register register_rs2 low
K2 Register register_rs2 high
K2 Register register_rs_valid low
K1 Commit commit_valid low
K2 Commit commit_hartid low
K2 Commit commit_id low
K2 Commit commit_kill low
K1 Result result_valid low
K1 Result result_ready low
K2 Result result_hartid low
K2 Result result_id low
K2 Result result_data low
K2 Result result_data high
K2 Result result_rd low
K2 Result result_we low
idle: Ok(Bus { issue_valid: false, issue_ready: true, issue_hartid: 3, issue_id: 2748, issue_instr: 2309737967, issue_accept: true, issue_writeback: 3, issue_register_read: 42, register_valid: false, register_ready: true, register_hartid: 2, register_id: 4077, register_rs0: 81985529216486895, register_rs1: 18446744073709551615, register_rs2: 9223372043297226753, register_rs_valid: 63, commit_valid: false, commit_hartid: 1, commit_id: 291, commit_kill: true, result_valid: false, result_ready: true, result_hartid: 4, result_id: 1110, result_data: 18364758544493064720, result_rd: 30, result_we: 3 })
K1 Issue issue_valid low
K1 Register register_valid low
K1 Commit commit_valid low
K1 Result result_valid low
waiting: Ok(Bus { issue_valid: true, issue_ready: false, issue_hartid: 3, issue_id: 2748, issue_instr: 2309737967, issue_accept: true, issue_writeback: 3, issue_register_read: 42, register_valid: true, register_ready: false, register_hartid: 2, register_id: 4077, register_rs0: 81985529216486895, register_rs1: 18446744073709551615, register_rs2: 9223372043297226753, register_rs_valid: 37, commit_valid: true, commit_hartid: 1, commit_id: 291, commit_kill: true, result_valid: true, result_ready: false, result_hartid: 4, result_id: 1110, result_data: 18364758544493064720, result_rd: 30, result_we: 1 })
K1 Issue issue_valid low
K1 Issue issue_ready low
K2 Issue issue_hartid low
K2 Issue issue_id low
K2 Issue issue_instr low
K1 Register register_valid low
K1 Register register_ready low
K2 Register register_hartid low
K2 Register register_id low
K2 Register register_rs0 low
K2 Register register_rs1 low
K2 Register register_rs2 high
K2 Register register_rs_valid low
K1 Commit commit_valid low
K2 Commit commit_hartid low
K2 Commit commit_id low
K2 Commit commit_kill low
K1 Result result_valid low
K1 Result result_ready low
K2 Result result_hartid low
K2 Result result_id low
K2 Result result_data low
K2 Result result_rd low
K2 Result result_we low
refused: Ok(Bus { issue_valid: true, issue_ready: true, issue_hartid: 3, issue_id: 2748, issue_instr: 2309737967, issue_accept: false, issue_writeback: 3, issue_register_read: 10, register_valid: true, register_ready: true, register_hartid: 2, register_id: 4077, register_rs0: 81985529216486895, register_rs1: 18446744073709551615, register_rs2: 9223372043297226753, register_rs_valid: 10, commit_valid: true, commit_hartid: 1, commit_id: 291, commit_kill: true, result_valid: true, result_ready: true, result_hartid: 4, result_id: 1110, result_data: 18364758544493064720, result_rd: 30, result_we: 2 })
K1 Issue issue_valid low
K1 Issue issue_ready low
K2 Issue issue_hartid low
K2 Issue issue_id low
K2 Issue issue_instr low
K2 Issue issue_accept low
K2 Issue issue_writeback low
K1 Register register_valid low
K1 Register register_ready low
K2 Register register_hartid low
K2 Register register_id low
K2 Register register_rs0 high
K2 Register register_rs2 low
K2 Register register_rs_valid low
K1 Commit commit_valid low
K2 Commit commit_hartid low
K2 Commit commit_id low
K2 Commit commit_kill low
K1 Result result_valid low
K1 Result result_ready low
K2 Result result_hartid low
K2 Result result_id low
K2 Result result_data high
K2 Result result_rd low
K2 Result result_we low
narrow: Ok(Bus { issue_valid: true, issue_ready: true, issue_hartid: 1, issue_id: 4, issue_instr: 2309737967, issue_accept: true, issue_writeback: 1, issue_register_read: 2, register_valid: true, register_ready: true, register_hartid: 0, register_id: 5, register_rs0: 2309737967, register_rs1: 4294967295, register_rs2: 0, register_rs_valid: 3, commit_valid: true, commit_hartid: 1, commit_id: 3, commit_kill: true, result_valid: true, result_ready: true, result_hartid: 0, result_id: 6, result_data: 1985229328, result_rd: 30, result_we: 0 })
K1 Issue issue_valid low
K1 Issue issue_ready low
K2 Issue issue_hartid low
K2 Issue issue_id low
K2 Issue issue_instr low
K2 Issue issue_accept low
K2 Issue issue_writeback low
K2 Issue issue_register_read low
K1 Register register_valid low
K1 Register register_ready low
K2 Register register_hartid low
K2 Register register_id low
K2 Register register_rs0 low
K2 Register register_rs1 low
K2 Register register_rs_valid low
K1 Commit commit_valid low
K2 Commit commit_hartid low
K2 Commit commit_id low
K2 Commit commit_kill low
K1 Result result_valid low
K1 Result result_ready low
K2 Result result_hartid low
K2 Result result_id low
K2 Result result_we low
K2 Result result_id low
K2 Register register_id low
K2 Issue issue_id low
K1 Result result_ready low
K1 Register register_ready low
";
