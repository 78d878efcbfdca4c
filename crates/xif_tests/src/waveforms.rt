//! The samples of small waveforms, whatever the pieces in which a text is read. They are those of
//! an independent model of the format.
ghost use Rattle.xif_base.specs.Params.{IsInRange};

use crate::maps::{Spot, map_of, params_of_64_bits};
use crate::pieces::read;
use std::alloc::{AllocError, Global};
use std::process::Abort;
use std::test::Fail;
use vcd_text::{Item, Reader};
use xif_base::Params;
use xif_sampler::{SignalMap, sample_items};
use xif_signals::{Quad, Sample, Signal};

/// The default parameters of a job.
fn least_params() -> Params
    ensures { IsInRange result }
{
    Params {
        num_rs: 2,
        id_width: 3,
        rfr_width: 32,
        rfw_width: 32,
        num_harts: 1,
        hartid_width: 1,
        dual_read: 0,
        dual_write: false,
        split: true,
        profile: 1,
    }
}

// Packed signals in nested scopes, which are unknown at first.

const PACKED: &str = "\
$date today $end
$version sim $end
$timescale 1ps $end
$scope module top $end
$var wire 1 ! clk $end
$var wire 1 \" rst_n $end
$scope module xif $end
$var wire 1 # issue_valid $end
$var wire 1 $ issue_ready $end
$var wire 36 % issue_req [35:0] $end
$var wire 4 & issue_resp [3:0] $end
$upscope $end
$upscope $end
$enddefinitions $end
#0
$dumpvars
x!
0\"
x#
x$
bx %
bx &
$end
0!
#5
1!
$comment reset ends $end
1\"
0#
0$
#10
0!
#15
1!
1#
1$
b1110000000010110010 %
b0 &
#20
0!
#25
1!
b100 &
#30
0!
";

const PACKED_PLACES: [(Signal, Spot); 10] = [
    (Signal::Clk, Spot::Named("top.clk", 0, None)),
    (Signal::RstN, Spot::Named("top.rst_n", 0, None)),
    (
        Signal::IssueValid,
        Spot::Named("top.xif.issue_valid", 0, None),
    ),
    (
        Signal::IssueReady,
        Spot::Named("top.xif.issue_ready", 0, None),
    ),
    (
        Signal::IssueInstr,
        Spot::Named("top.xif.issue_req", 4, Some(35)),
    ),
    (
        Signal::IssueHartid,
        Spot::Named("top.xif.issue_req", 3, Some(3)),
    ),
    (
        Signal::IssueId,
        Spot::Named("top.xif.issue_req", 0, Some(2)),
    ),
    (
        Signal::IssueAccept,
        Spot::Named("top.xif.issue_resp", 3, Some(3)),
    ),
    (
        Signal::IssueWriteback,
        Spot::Named("top.xif.issue_resp", 2, Some(2)),
    ),
    (
        Signal::IssueRegisterRead,
        Spot::Named("top.xif.issue_resp", 0, Some(1)),
    ),
];

const PACKED_SAMPLES: &str = "\
sample issue_valid=0?1 issue_ready=0?1 issue_hartid=0?1 issue_id=0?7 issue_instr=0?ffffffff issue_accept=0?1 issue_writeback=0?1 issue_register_read=0?3
sample rst_n=1 issue_hartid=0?1 issue_id=0?7 issue_instr=0?ffffffff issue_accept=0?1 issue_writeback=0?1 issue_register_read=0?3
sample rst_n=1 issue_valid=1 issue_ready=1 issue_id=2 issue_instr=700b
";

#[test]
fn the_samples_of_a_text(rt: HostRuntime) -> Result<(), Fail> {
    let map = map_of(rt.alloc(), &PACKED_PLACES, Spot::Number(0))?;
    let params = least_params();
    check(&rt, rt.alloc(), PACKED, &map, &params, PACKED_SAMPLES)
}

// Values of a variable of 100 bits, of which some are extended by 0, x or z: bits 2 to 4, 0 to 63
// and 36 to 99.

const LONG: [&str; 14] = [
    "x",
    "0",
    "1",
    "z",
    "x1",
    "z0101",
    "1x0z1",
    "111111111111111111111111111111111111",
    "xxxxxxxxxxxxxxxxxxxxxxxxxxxxxxxxxxxx0",
    "z1z1z1z1z1z1z1z1z1z1z1z1z1z1z1z1z1z1z1z1z1z1z1z1z1z1z1z1z1z1z1z1",
    "10000000000000000000000000000000000000000000000000000000000000001",
    "1000000000000000000000000000000000000000000000000000000000000000000000000000000000000000000000000000",
    "x111111111111111111111111111111111111111111111111111111111111111111111111111111111111111111111111111",
    "1xz100z01xxzz100zx111z01zx10zx1z1zzxzxxzz10z1zx10zxx0x0xxxzxxx10zxxxzxxxxxzx1",
];

const LONG_PLACES: [(Signal, Spot); 4] = [
    (Signal::Clk, Spot::Named("c", 0, None)),
    (Signal::RegisterId, Spot::Named("wide", 2, None)),
    (Signal::RegisterRs0, Spot::Named("wide", 0, None)),
    (Signal::RegisterRs1, Spot::Named("wide", 36, Some(99))),
];

const LONG_SAMPLES: &str = "\
sample register_id=0?7 register_rs0=0?ffffffffffffffff register_rs1=0?ffffffffffffffff
sample
sample register_rs0=1
sample register_id=0?7 register_rs0=0?ffffffffffffffff register_rs1=0?ffffffffffffffff
sample register_id=0?7 register_rs0=1?fffffffffffffffe register_rs1=0?ffffffffffffffff
sample register_id=1?4 register_rs0=5?fffffffffffffff0 register_rs1=0?ffffffffffffffff
sample register_id=4?2 register_rs0=11?a
sample register_id=7 register_rs0=fffffffff
sample register_id=0?7 register_rs0=0?fffffffffffffffe register_rs1=0?ffffffffffffffff
sample register_id=5?2 register_rs0=5555555555555555?aaaaaaaaaaaaaaaa register_rs1=5555555?fffffffffaaaaaaa
sample register_rs0=1 register_rs1=10000000
sample register_rs1=8000000000000000
sample register_id=7 register_rs0=ffffffffffffffff register_rs1=7fffffffffffffff?8000000000000000
sample register_id=0?7 register_rs0=8724500920004001?1899aff2cebf9ffe register_rs1=12108724500?c4f1899aff
";

/// Each value before a rise of the clock.
fn text_of_values(alloc: Global) -> Result<String, AllocError> {
    let mut text = String::from_str(
        alloc,
        "$var wire 1 ! c $end\n$var wire 100 \" wide $end\n$enddefinitions $end\n",
    )?;
    let mut time = 0u64;
    for digits in &LONG {
        write!(text, "#{time}\n0!\nb{digits} \"\n")?;
        time = time.wrapping_add(5);
        write!(text, "#{time}\n1!\n")?;
        time = time.wrapping_add(5);
    }
    Ok(text)
}

#[test]
fn bits_of_a_long_value(rt: HostRuntime) -> Result<(), Fail> {
    let text = text_of_values(rt.alloc())?;
    let map = map_of(rt.alloc(), &LONG_PLACES, Spot::Number(0))?;
    let params = params_of_64_bits();
    check(&rt, rt.alloc(), text.as_str(), &map, &params, LONG_SAMPLES)
}

/// Reads a text whole, byte by byte, and in pieces of 7 bytes, and compares its samples.
fn check(
    rt: &impl Abort,
    alloc: Global,
    text: &str,
    map: &SignalMap,
    params: &Params,
    samples: &str,
) -> Result<(), Fail>
    requires { IsInRange params.now }
{
    assert!(rt; text.len() < 10_000);
    for len in [10_000, 1, 7] {
        let mut reader = read(alloc, text.as_bytes(), len)?;
        let got = samples_text(alloc, &mut reader, map, params)?;
        assert_eq!(rt; got.as_str(), samples, "{len} {text}");
    }
    Ok(())
}

/// The samples of a text that was read: a line each.
fn samples_text(
    alloc: Global,
    reader: &mut Reader,
    map: &SignalMap,
    params: &Params,
) -> Result<String, Fail>
    requires { IsInRange params.now }
{
    let items = take_all(alloc, reader)?;
    let mut text = String::new(alloc);
    if let Some(declarations) = reader.declarations() {
        for sample in &sample_items(alloc, map, declarations, params, &items)? {
            write_sample(&mut text, sample)?;
        }
    }
    Ok(text)
}

/// The items of a reader, which are few.
fn take_all(alloc: Global, reader: &mut Reader) -> Result<Vec<Item>, AllocError> {
    let mut items = Vec::new(alloc);
    for _ in 0..1_000 {
        match reader.take() {
            Some(item) => items.push(item)?,
            None => return Ok(items),
        }
    }
    Ok(items)
}

/// The signals of a sample that aren't 0.
fn write_sample(text: &mut String, sample: &Sample) -> Result<(), AllocError> {
    text.push_str("sample")?;
    for signal in Signal::all() {
        if signal != Signal::Clk {
            write_bits(text, signal.name(), sample.get(signal))?;
        }
    }
    text.push('\n')
}

/// The value of a signal, and which of its bits are unknown.
fn write_bits(text: &mut String, name: &str, bits: Quad) -> Result<(), AllocError> {
    if bits.unknown != 0 {
        write!(text, " {name}={:x}?{:x}", bits.value, bits.unknown)
    } else if bits.value != 0 {
        write!(text, " {name}={:x}", bits.value)
    } else {
        Ok(())
    }
}
