//! The disk and the standard output. What a real file holds, and what becomes of bytes that were
//! written, is trusted to the system.
ghost use Rattle.std.specs.Prelude.{◌≡◌, ◌≢◌, ◌≤◌, ◌<◌, length, IfOk, MatchResult};
ghost use Rattle.std.specs.Io.{ReadsAtMost, WritesAtMost};
ghost use Rattle.xif_base.specs.Faults.{raised};

use crate::count::FaultCount;
use crate::{Failed, Out, Shelf, WriteFail};
use std::fs::{File, Files, OpenOptions};
use std::io;
use std::io::{ErrorKind, Print, Read, Seek, SeekFrom, Write};
use std::marker::Model;

/// How often a call is tried that a signal interrupts.
const RETRIES: usize = 64;

/// The files of a disk. It reports nothing of what they hold.
#[derive(Drop)]
pub struct DiskShelf<R> {
    files: R,
    fetch_faults: FaultCount,
    write_faults: FaultCount,
}

/// Its counts of faults.
impl<R> Model for DiskShelf<R> {
    ghost use Rattle.xif_base.specs.Faults.{Counts};

    ghost Value = { Counts };

    ghost view = { λ s. record { fetches = s.fetch_faults; writes = s.write_faults } };
}

impl<R: Files + Drop> DiskShelf<R> {
    /// A shelf over the files that `rt` opens.
    pub fn new(rt: R) -> DiskShelf<R>
        ensures no_fault { result ≡ record { fetches = 0; writes = 0 } }
    {
        DiskShelf {
            files: rt,
            fetch_faults: FaultCount::new(),
            write_faults: FaultCount::new(),
        }
    }
}

impl<R: Files + Drop> Shelf for DiskShelf<R> {
    ghost use Rattle.std.specs.Prelude.{None};

    ghost files = { λ _. None };

    ghost fetch_faults = { λ s. s.fetches };

    ghost write_faults = { λ s. s.writes };

    fn fetch(&mut self, name: &str, at: u64, buf: &mut [u8]) -> Result<usize, Failed>
        ensures bound { ReadsAtMost result buf.new }

        // The count rises at each failure, and only there. A file that isn't there is one too.
        ensures counted { MatchResult result
            (λ _. self.new ≡ self.old)
            (λ _. self.new ≡ record self.old { fetches = raised self.old.fetches }) }
        ensures count { self.old.fetches ≤ self.new.fetches }
        ensures writes { self.new.writes ≡ self.old.writes }
    {
        if buf.is_empty() {
            return Ok(0);
        }
        match read_at(&self.files, name, at, buf) {
            Ok(count) => Ok(count),
            Err(_) => {
                self.fetch_faults.raise();
                Err(Failed)
            }
        }
    }

    fn start(&mut self, name: &str) -> Result<(), WriteFail>
        // The count rises at each failure, and only there. The call is never out of memory.
        ensures counted { MatchResult result
            (λ _. self.new ≡ self.old)
            (λ _. self.new ≡ record self.old { writes = raised self.old.writes }) }
        ensures count { self.old.writes ≤ self.new.writes }
        ensures fetches { self.new.fetches ≡ self.old.fetches }
        ensures never_memory { result ≢ Err WriteFail.NoMemory }
    {
        match File::create(&self.files, name) {
            Ok(_) => Ok(()),
            Err(_) => {
                self.write_faults.raise();
                Err(WriteFail::Failed)
            }
        }
    }

    fn append(&mut self, name: &str, piece: &[u8]) -> Result<usize, WriteFail>
        ensures bound { WritesAtMost result piece.now }
        ensures some { IfOk result (λ n. 0 < length piece.now → 0 < n) }

        // The count rises at each failure, and only there. A file that isn't there is one too.
        ensures counted { MatchResult result
            (λ _. self.new ≡ self.old)
            (λ _. self.new ≡ record self.old { writes = raised self.old.writes }) }
        ensures count { self.old.writes ≤ self.new.writes }
        ensures fetches { self.new.fetches ≡ self.old.fetches }
        ensures never_memory { result ≢ Err WriteFail.NoMemory }
    {
        match write_to(&self.files, name, piece) {
            Ok(count) if count > 0 || piece.is_empty() => Ok(count),
            _ => {
                self.write_faults.raise();
                Err(WriteFail::Failed)
            }
        }
    }
}

/// Writes once to the end of a file that is there, which is opened anew for it.
fn write_to<R: Files>(files: &R, name: &str, piece: &[u8]) -> io::Result<usize>
    ensures bound { WritesAtMost result piece.now }
{
    let mut file = OpenOptions::new().append(true).open(files, name)?;
    for _ in 0..RETRIES {
        match file.write(piece) {
            Err(error) if error.kind() == ErrorKind::Interrupted => {}
            answer => return answer,
        }
    }
    Err(ErrorKind::Interrupted.into())
}

/// Reads once from a file, which is opened anew for it.
fn read_at<R: Files>(files: &R, name: &str, at: u64, buf: &mut [u8]) -> io::Result<usize>
    ensures bound { ReadsAtMost result buf.new }
{
    let mut file = File::open(files, name)?;
    file.seek(SeekFrom::Start(at))?;
    for _ in 0..RETRIES {
        match file.read(buf) {
            Err(error) if error.kind() == ErrorKind::Interrupted => {}
            answer => return answer,
        }
    }
    Err(ErrorKind::Interrupted.into())
}

/// The standard output. It reports nothing of what was put.
#[derive(Drop)]
pub struct StdOut<R> {
    rt: R,
    faults: FaultCount,
}

/// Its count of faults.
impl<R> Model for StdOut<R> {
    ghost use Rattle.std.specs.Prelude.{ℕ};

    ghost Value = { ℕ };

    ghost view = { λ s. s.faults };
}

impl<R: Print + Drop> StdOut<R> {
    /// An output that `rt` prints.
    pub fn new(rt: R) -> StdOut<R>
        ensures no_fault { result ≡ 0 }
    {
        StdOut {
            rt,
            faults: FaultCount::new(),
        }
    }
}

impl<R: Print + Drop> Out for StdOut<R> {
    ghost use Rattle.std.specs.Prelude.{None};

    ghost put_bytes = { λ _. None };

    ghost faults = { λ s. s };

    fn put(&mut self, piece: &[u8]) -> Result<usize, WriteFail>
        ensures bound { WritesAtMost result piece.now }
        ensures some { IfOk result (λ n. 0 < length piece.now → 0 < n) }

        // The count rises at each failure, and only there. The call is never out of memory.
        ensures counted { MatchResult result
            (λ _. self.new ≡ self.old)
            (λ _. self.new ≡ raised self.old) }
        ensures count { self.old ≤ self.new }
        ensures never_memory { result ≢ Err WriteFail.NoMemory }
    {
        match print_some(&self.rt, piece) {
            Ok(count) if count > 0 || piece.is_empty() => Ok(count),
            _ => {
                self.faults.raise();
                Err(WriteFail::Failed)
            }
        }
    }
}

/// Prints once.
fn print_some<R: Print>(rt: &R, piece: &[u8]) -> io::Result<usize>
    ensures { WritesAtMost result piece.now }
{
    for _ in 0..RETRIES {
        match rt.write_some(piece) {
            Err(error) if error.kind() == ErrorKind::Interrupted => {}
            answer => return answer,
        }
    }
    Err(ErrorKind::Interrupted.into())
}
