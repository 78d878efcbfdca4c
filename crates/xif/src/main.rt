//! The program `xif`: the words, the files and the standard output of the system, and
//! `xif_cli::xif` between them. It prints the fault line on standard error and ends with the
//! status's number.
#![tactic(auto)]

use std::alloc::Global;
use std::env::Env;
use std::process::ExitCode;
use std::{env, io};
use xif_base::{DiskShelf, StdOut};
use xif_cli::{Status, xif};

fn main(rt: HostRuntime) -> ExitCode {
    let status = match words(&rt) {
        Ok(words) => {
            let mut shelf = DiskShelf::new(&rt);
            let mut out = StdOut::new(&rt);
            xif(rt.alloc(), &words, &mut shelf, &mut out)
        }
        Err(error) => status_of(&error),
    };
    if status.is_fault() {
        let _ = eprintln!(rt; "{status}");
    }
    ExitCode::from(status.number())
}

/// The words after the program's name.
fn words(rt: &(impl Env + Alloc<A = Global>)) -> io::Result<Vec<String>> {
    let mut words = Vec::new(rt.alloc());
    for word in env::args(rt)?.skip(1) {
        words.push(word)?;
    }
    Ok(words)
}

/// Words that are no text are those of no form.
fn status_of(error: &io::Error) -> Status {
    match error.kind() {
        io::ErrorKind::OutOfMemory => Status::NoMemory,
        _ => Status::Usage,
    }
}
