//! A judge of a few samples: what it returns at each step, and its verdict.
ghost use Rattle.xif_base.specs.Params.{IsInRange};

use std::alloc::Global;
use std::test::Fail;
use xif_base::Params;
use xif_judge::Judge;
use xif_signals::{Bus, Quad, Sample, Signal};

/// A hartid has two bits, and 2 and 3 are those of no hart.
fn two_harts() -> Params
    ensures { IsInRange result }
{
    Params {
        num_rs: 2,
        id_width: 3,
        rfr_width: 32,
        rfw_width: 32,
        num_harts: 2,
        hartid_width: 2,
        dual_read: 0,
        dual_write: false,
        split: true,
        profile: 1,
    }
}

/// An instruction of hart 1 is offered, gets its registers, is released and gives its result, all in
/// one cycle.
const BUS: Bus = Bus {
    issue_valid: true,
    issue_ready: true,
    issue_hartid: 1,
    issue_id: 1,
    issue_instr: 0x2db,
    issue_accept: true,
    issue_writeback: 1,
    issue_register_read: 3,
    register_valid: true,
    register_ready: true,
    register_hartid: 1,
    register_id: 1,
    register_rs0: 10,
    register_rs1: 11,
    register_rs2: 0,
    register_rs_valid: 3,
    commit_valid: true,
    commit_hartid: 1,
    commit_id: 1,
    commit_kill: false,
    result_valid: true,
    result_ready: true,
    result_hartid: 1,
    result_id: 1,
    result_data: 12,
    result_rd: 5,
    result_we: 1,
};

/// What is driven as hartid of commit and as reset, where bits above the width don't count.
const CYCLES: [(u64, u64); 6] = [(1, 1), (5, 3), (2, 0), (2, 2), (7, 1), (2, 1)];

#[test]
fn the_first_fault_stays(rt: HostRuntime) -> Result<(), Fail> {
    let text = text_of_answers(rt.alloc())?;
    assert_eq!(rt; text.as_str(), ANSWERS);
    Ok(())
}

/// What a judge returns at each step, and its verdict.
fn text_of_answers(alloc: Global) -> Result<String, Fail> {
    let mut judge = Judge::new(alloc, &two_harts())?;
    let mut text = String::new(alloc);
    for (hartid, reset) in &CYCLES {
        let answer = judge.step(&sample_of(*hartid, *reset));
        writeln!(text, "{} {answer:?}", judge.cycles())?;
    }
    writeln!(text, "{:?}", judge.verdict())?;
    Ok(text)
}

fn sample_of(hartid: u64, reset: u64) -> Sample {
    let mut sample = BUS.sample();
    sample.set(Signal::CommitHartid, known(hartid));
    sample.set(Signal::RstN, known(reset));
    sample
}

fn known(value: u64) -> Quad {
    Quad { value, unknown: 0 }
}

const ANSWERS: &str = "\
1 Ok(())
2 Ok(())
3 Ok(())
4 Ok(())
5 Err(Verdict { cycle: 4, rule: H1, channel: Commit, key: Some(Key { hart: 3, id: 1 }) })
6 Err(Verdict { cycle: 4, rule: H1, channel: Commit, key: Some(Key { hart: 3, id: 1 }) })
Some(Verdict { cycle: 4, rule: H1, channel: Commit, key: Some(Key { hart: 3, id: 1 }) })
";
