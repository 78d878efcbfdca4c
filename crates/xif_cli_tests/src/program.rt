//! Whole calls over a shelf and an output in memory, whose calls fail in turn.
use std::alloc::{AllocError, Global};
use std::process::Abort;
use std::test::Fail;
use xif_base::{MemOut, MemShelf};
use xif_cli::{Status, xif};

// A job for all three commands: its image, and constants for all signals but the clock. An
// instruction of hart 1 is offered in each cycle, where there is hart 0 alone.
const JOB: &str = "[image]\nfile = \"p\"\nkind = \"raw\"\n\
    [map]\nclk = \"c\"\nrst_n = 1\nissue_valid = 1\nissue_hartid = 1\n\
    issue_ready = 0\nissue_id = 0\nissue_instr = 0\nissue_accept = 0\nissue_writeback = 0\n\
    issue_register_read = 0\nregister_valid = 0\nregister_ready = 0\nregister_hartid = 0\n\
    register_id = 0\nregister_rs0 = 0\nregister_rs1 = 0\nregister_rs_valid = 0\n\
    commit_valid = 0\ncommit_hartid = 0\ncommit_id = 0\ncommit_kill = 0\n\
    result_valid = 0\nresult_ready = 0\nresult_hartid = 0\nresult_id = 0\nresult_data = 0\n\
    result_rd = 0\nresult_we = 0\n";

// addi x1, x0, 5; ecall
const IMAGE: [u8; 8] = [0x93, 0x00, 0x50, 0x00, 0x73, 0x00, 0x00, 0x00];

// One cycle.
const WAVEFORM: &str = "$var wire 1 ! c $end\n$enddefinitions $end\n#0\n0!\n#5\n1!\n";

// A file is read by two fetches, of which the second returns no bytes.
const CALLS: [&str; 3] = ["raw p 10", "step j", "judge j w"];

// The failing call, the status with its fault line, and what is printed.
const WANTED: &str = "raw p 10, fetch 0: 3 read image||\n\
    raw p 10, put 0: 4 write output||\n\
    raw p 10, fetch 1: 3 read image||\n\
    raw p 10, put 1: 4 write output|end=ecall pc=0x0|\n\
    raw p 10, fetch 2: 0 |end=ecall pc=0x00000004 retired=1\nx1=0x00000005\n|\n\
    raw p 10, put 2: 4 write output|end=ecall pc=0x00000004 retired=|\n\
    raw p 10, fetch 3: 0 |end=ecall pc=0x00000004 retired=1\nx1=0x00000005\n|\n\
    raw p 10, put 3: 0 |end=ecall pc=0x00000004 retired=1\nx1=0x00000005\n|\n\
    raw p 10, fetch 4: 0 |end=ecall pc=0x00000004 retired=1\nx1=0x00000005\n|\n\
    raw p 10, put 4: 0 |end=ecall pc=0x00000004 retired=1\nx1=0x00000005\n|\n\
    step j, fetch 0: 3 read job||\n\
    step j, put 0: 4 write output||\n\
    step j, fetch 1: 3 read job||\n\
    step j, put 1: 4 write output|end=ecall pc=0x0|\n\
    step j, fetch 2: 3 read image||\n\
    step j, put 2: 4 write output|end=ecall pc=0x00000004 retired=|\n\
    step j, fetch 3: 3 read image||\n\
    step j, put 3: 0 |end=ecall pc=0x00000004 retired=1\nx1=0x00000005\n|\n\
    step j, fetch 4: 0 |end=ecall pc=0x00000004 retired=1\nx1=0x00000005\n|\n\
    step j, put 4: 0 |end=ecall pc=0x00000004 retired=1\nx1=0x00000005\n|\n\
    judge j w, fetch 0: 3 read job||\n\
    judge j w, put 0: 4 write output||\n\
    judge j w, fetch 1: 3 read job||\n\
    judge j w, put 1: 4 write output|illegal cycle=0 |\n\
    judge j w, fetch 2: 3 read waveform||\n\
    judge j w, put 2: 4 write output|illegal cycle=0 rule=H1 channel=|\n\
    judge j w, fetch 3: 3 read waveform||\n\
    judge j w, put 3: 4 write output|illegal cycle=0 rule=H1 channel=issue hart=1 id=|\n\
    judge j w, fetch 4: 1 |illegal cycle=0 rule=H1 channel=issue hart=1 id=0\n|\n\
    judge j w, put 4: 1 |illegal cycle=0 rule=H1 channel=issue hart=1 id=0\n|\n";

fn words_of(alloc: Global, line: &str) -> Result<Vec<String>, AllocError> {
    let mut words = Vec::new(alloc);
    for word in line.split(' ') {
        words.push(String::from_str(alloc, word)?)?;
    }
    Ok(words)
}

// Appends what a call ends with, and what it prints.
fn push_call(
    rt: &(impl Abort + AllocGlobal),
    text: &mut String,
    line: &str,
    fetches: &[u64],
    puts: &[u64],
) -> Result<(), Fail> {
    let mut shelf = MemShelf::new(rt.alloc(), 4096, fetches, &[], &[])?;
    shelf.insert("j", JOB.as_bytes())?;
    shelf.insert("p", &IMAGE)?;
    shelf.insert("w", WAVEFORM.as_bytes())?;
    let mut out = MemOut::new(rt.alloc(), 16, puts)?;
    let words = words_of(rt.alloc(), line)?;
    let status = xif(rt.alloc(), &words, &mut shelf, &mut out);
    let printed = str::from_utf8(out.bytes()).unwrap_or("no text");
    writeln!(text, " {} {status}|{printed}|", status.number())?;
    Ok(())
}

#[test]
fn each_failing_call_is_reported(rt: HostRuntime) -> Result<(), Fail> {
    let mut text = String::new(rt.alloc());
    for line in &CALLS {
        for failing in 0..5 {
            write!(text, "{line}, fetch {failing}:")?;
            push_call(&rt, &mut text, line, &[failing], &[])?;
            write!(text, "{line}, put {failing}:")?;
            push_call(&rt, &mut text, line, &[], &[failing])?;
        }
    }
    assert_eq!(rt; text.as_str(), WANTED);
    Ok(())
}

#[test]
fn statuses_are_faults_but_two(rt: HostRuntime) -> Result<(), Fail> {
    assert!(rt; !Status::Done.is_fault());
    assert!(rt; !Status::Illegal.is_fault());
    assert!(rt; Status::NoMemory.is_fault());
    assert_eq!(rt;
        Status::NoMemory.to_string(rt.alloc())?.as_str(),
        "no memory"
    );
    Ok(())
}
