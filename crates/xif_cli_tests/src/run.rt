//! `run` over a shelf and an output in memory, whose calls fail in turn: how the call ends, what
//! stands of the trace and of the log, and what is printed.
use std::alloc::{AllocError, Global};
use std::process::Abort;
use std::test::Fail;
use xif_base::{MemOut, MemShelf};
use xif_cli::xif;

const JOB: &str = "[image]\nfile = \"p\"\nkind = \"raw\"\n\
    [[unit]]\naccumulators = 1\n\
    [[unit.entry]]\nmask = 0x707f\nmatch = 0x000b\nop = \"acc_add\"\n\
    [[unit.entry]]\nmask = 0x707f\nmatch = 0x100b\nop = \"extract_u\"\nlow = 4\nlen = 8\n";

// A branch that is taken, and two uses of the unit that it passes over.
const IMAGE: [u8; 24] = [
    0x93, 0x00, 0x30, 0x00, 0x8b, 0x12, 0x00, 0x00, 0x63, 0x86, 0x02, 0x00, 0x0b, 0x80, 0x00, 0x00,
    0x0b, 0x80, 0x00, 0x00, 0x73, 0x00, 0x00, 0x00,
];

const KINDS: [Kind; 4] = [Kind::Fetch, Kind::Start, Kind::Append, Kind::Put];

// The call from which on a row holds, the status with its fault line, what stands of trace and log,
// and what is printed.
const WANTED: &str = "\
Fetch 0: 3 read job|none|none||
Fetch 5: 3 read image|none|none||
Fetch 7: 0 |whole|whole|end=ecall pc=0x00000014 retired=3 cycles=8\nx1=0x00000003\n|
Start 0: 4 write trace|none|none||
Start 1: 4 write log|whole|none||
Start 2: 0 |whole|whole|end=ecall pc=0x00000014 retired=3 cycles=8\nx1=0x00000003\n|
Append 0: 4 write trace|prefix|none||
Append 23: 4 write log|whole|prefix||
Append 29: 0 |whole|whole|end=ecall pc=0x00000014 retired=3 cycles=8\nx1=0x00000003\n|
Put 0: 4 write output|whole|whole||
Put 1: 4 write output|whole|whole|end=ecall pc=0x0|
Put 2: 4 write output|whole|whole|end=ecall pc=0x00000014 retired=|
Put 3: 4 write output|whole|whole|end=ecall pc=0x00000014 retired=3 cycles=8\nx1=0x|
Put 4: 0 |whole|whole|end=ecall pc=0x00000014 retired=3 cycles=8\nx1=0x00000003\n|
";

/// A kind of calls, of which one fails.
#[derive(Clone, Copy, Debug)]
enum Kind {
    Fetch,
    Start,
    Append,
    Put,
}

/// What a run leaves.
#[derive(Drop)]
struct Left {
    status: u8,
    row: String,
}

fn words(alloc: Global) -> Result<Vec<String>, AllocError> {
    let mut words = Vec::new(alloc);
    words.push(String::from_str(alloc, "run")?)?;
    words.push(String::from_str(alloc, "j")?)?;
    Ok(words)
}

// The files that `run` reads, and nothing else. One call of a kind fails, by its number from 0 on.
fn shelf_of(alloc: Global, kind: Kind, failing: &[u64]) -> Result<MemShelf, Fail> {
    let mut shelf = match kind {
        Kind::Fetch => MemShelf::new(alloc, 64, failing, &[], &[])?,
        Kind::Start => MemShelf::new(alloc, 64, &[], failing, &[])?,
        Kind::Append => MemShelf::new(alloc, 64, &[], &[], failing)?,
        Kind::Put => MemShelf::new(alloc, 64, &[], &[], &[])?,
    };
    shelf.insert("j", JOB.as_bytes())?;
    shelf.insert("p", &IMAGE)?;
    Ok(shelf)
}

fn out_of(alloc: Global, kind: Kind, failing: &[u64]) -> Result<MemOut, Fail> {
    match kind {
        Kind::Put => Ok(MemOut::new(alloc, 16, failing)?),
        _ => Ok(MemOut::new(alloc, 16, &[])?),
    }
}

// What stands of a file, beside the whole of it.
fn standing(bytes: Option<&[u8]>, whole: Option<&[u8]>) -> &'static str {
    match (bytes, whole) {
        (None, _) => "none",
        (Some(bytes), Some(whole)) if bytes == whole => "whole",
        (Some(bytes), Some(whole)) if whole.starts_with(bytes) => "prefix",
        _ => "other",
    }
}

// A run in which one call of a kind fails; `whole` is the shelf after a run in which none does.
fn run_with(alloc: Global, kind: Kind, failing: u64, whole: &MemShelf) -> Result<Left, Fail> {
    let mut shelf = shelf_of(alloc, kind, &[failing])?;
    let mut out = out_of(alloc, kind, &[failing])?;
    let status = xif(alloc, &words(alloc)?, &mut shelf, &mut out);
    let mut row = String::new(alloc);
    write!(
        row,
        "{} {status}|{}|{}|{}|",
        status.number(),
        standing(shelf.bytes("trace.vcd"), whole.bytes("trace.vcd")),
        standing(shelf.bytes("trace.log"), whole.bytes("trace.log")),
        str::from_utf8(out.bytes()).unwrap_or("no text")
    )?;
    Ok(Left {
        status: status.number(),
        row,
    })
}

#[test]
fn each_failing_call_of_run_is_reported(rt: HostRuntime) -> Result<(), Fail> {
    let mut whole = shelf_of(rt.alloc(), Kind::Put, &[])?;
    let mut out = out_of(rt.alloc(), Kind::Put, &[])?;
    let status = xif(rt.alloc(), &words(rt.alloc())?, &mut whole, &mut out);
    assert_eq!(rt; status.number(), 0);
    let mut text = String::new(rt.alloc());
    for kind in KINDS {
        push_rows(rt.alloc(), kind, &whole, &mut text)?;
    }
    assert_eq!(rt; text.as_str(), WANTED);
    Ok(())
}

// A row for each call of a kind that fails in turn, up to the first that isn't made; a row that is
// that of the call before it is left out.
fn push_rows(alloc: Global, kind: Kind, whole: &MemShelf, text: &mut String) -> Result<(), Fail> {
    let mut last = String::new(alloc);
    for failing in 0..64 {
        let Left { status, row } = run_with(alloc, kind, failing, whole)?;
        if row != last {
            writeln!(text, "{kind:?} {failing}: {row}")?;
        }
        if status == 0 {
            break;
        }
        last = row;
    }
    Ok(())
}
