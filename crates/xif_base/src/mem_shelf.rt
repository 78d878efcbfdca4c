//! A shelf in memory, for tests: its calls move as few bytes and fail as often as its owner says.
ghost use Rattle.std.specs.Prelude.{◌≡◌, ◌≢◌, ◌≤◌, ◌<◌, ◌-◌, ◌++◌, ◌↔◌, ◌⊎◌, ℕ, List, [], Some, None, length, take, drop, min, IfOk, OnOk, OnErr, IsErr, IsErrOf, IsSome, IsTrue, MatchResult};
ghost use Rattle.std.specs.Io.{ReadsAtMost, WritesAtMost};
ghost use Rattle.std.specs.Option.{option_map};
ghost use Rattle.std.specs.FinMap as map;
ghost use Rattle.xif_base.specs.Faults.{Rose, CountsFaults, OnlyReads};
ghost use Rattle.xif_base.specs.Files.{IsMissing, HasBytes, Copies, appended, Becomes};
ghost use Rattle.xif_base.specs.Calls.{is_failing};
ghost use Rattle.xif_base.specs.MemoryShelf.{new_shelf, IsFaultless, after_fetch, after_start, after_append};

use crate::count::{FailingCalls, FaultCount};
use crate::file_map::FileMap;
use crate::{Failed, NoMemory, Shelf, WriteFail};
use std::alloc::Global;
use std::marker::Model;

/// Files in memory, for tests. A fetch or an append moves at most `grain` bytes.
#[derive(Drop)]
pub struct MemShelf {
    files: FileMap,
    grain: usize,
    fetches: FailingCalls,
    starts: FailingCalls,
    appends: FailingCalls,
    fetch_faults: FaultCount,
    write_faults: FaultCount,
}

impl Model for MemShelf {
    ghost use Rattle.std.specs.Prelude.{◌≤◌};
    ghost use Rattle.xif_base.specs.MemoryShelf.{ShelfState, shelf_state_code};

    ghost Value = { ShelfState };

    ghost coded = { shelf_state_code };

    ghost view = { λ s. record {
      files = s.files;
      grain = s.grain;
      fetches = s.fetches;
      starts = s.starts;
      appends = s.appends;
      fetch_faults = s.fetch_faults;
      write_faults = s.write_faults;
    } };

    ghost invariant = { λ s. 1 ≤ s.grain };
}

impl MemShelf {
    /// A shelf with no files. The three lists have the numbers, from 0, of the calls of each kind
    /// that fail. A fetch or an append of a file that isn't there has no number.
    pub fn new(
        alloc: Global,
        grain: usize,
        fetches: &[u64],
        starts: &[u64],
        appends: &[u64],
    ) -> Result<MemShelf, NoMemory>
        requires { 1 ≤ grain }
        ensures { IfOk result (λ s. s ≡ new_shelf grain fetches.now starts.now appends.now) }
    {
        Ok(MemShelf {
            files: FileMap::new(alloc),
            grain,
            fetches: FailingCalls::new(alloc, fetches)?,
            starts: FailingCalls::new(alloc, starts)?,
            appends: FailingCalls::new(alloc, appends)?,
            fetch_faults: FaultCount::new(),
            write_faults: FaultCount::new(),
        })
    }

    /// Puts a file there, in place of one of that name.
    pub fn insert(&mut self, name: &str, bytes: &[u8]) -> Result<(), NoMemory>
        ensures ok { OnOk result (self.new
            ≡ record self.old { files = map.insert self.old.files name.now bytes.now }) }
        ensures err { OnErr result (self.new ≡ self.old) }
    {
        self.files.insert(name, bytes)
    }

    /// The bytes of a file, and `None` if there is no such file.
    pub fn bytes(&self, name: &str) -> Option<&[u8]>
        ensures { option_map (λ bytes. bytes.now) result ≡ map.get self.now.files name.now }
    {
        self.files.get(name)
    }
}

impl Shelf for MemShelf {
    ghost files = { λ s. Some s.files };

    ghost fetch_faults = { λ s. s.fetch_faults };

    ghost write_faults = { λ s. s.write_faults };

    ghost faultless = { IsFaultless };

    fn fetch(&mut self, name: &str, at: u64, buf: &mut [u8]) -> Result<usize, Failed>
        // A file that isn't there is a failure that has no number and is no fault.
        ensures absent { map.get self.old.files name.now ≡ None → IsErr result }
        ensures absent_stays { map.get self.old.files name.now ≡ None → self.new ≡ self.old }

        // A fetch of a file fails if and only if its number is listed, and the count rises there.
        ensures fails { IsSome (map.get self.old.files name.now) →
            (IsErr result ↔ IsTrue (is_failing self.old.fetches)) }
        ensures counted { IsSome (map.get self.old.files name.now) →
            self.new ≡ after_fetch self.old }

        // It moves what the grain, the buffer and the file allow. The rest of the buffer stays.
        ensures moved { IfOk result (λ n. (bytes : List ℕ) →
            map.get self.old.files name.now ≡ Some bytes →
            n ≡ min self.old.grain (min (length buf.old) (length bytes - at))) }
        ensures copied { IfOk result (λ n. (bytes : List ℕ) →
            map.get self.old.files name.now ≡ Some bytes →
            buf.new ≡ take n (drop at bytes) ++ drop n buf.old) }
        ensures err { OnErr result (buf.new ≡ buf.old) }

        // What every shelf does.
        ensures bound { ReadsAtMost result buf.new }
        ensures bytes { IfOk result (λ n. (bytes : List ℕ) →
            HasBytes (Some self.old.files) name.now bytes → Copies bytes at n buf.new) }
        ensures missing { IsMissing (Some self.old.files) name.now → IsErr result }
        ensures failed { OnErr result (Rose self.old.fetch_faults self.new.fetch_faults
            ⊎ (IsMissing (Some self.old.files) name.now
            × (self.new.fetch_faults ≡ self.old.fetch_faults))) }
        ensures uncounted { OnOk result (self.new.fetch_faults ≡ self.old.fetch_faults) }
        ensures only_reads { OnlyReads (λ s. Some s.files)
            (λ s. s.fetch_faults) (λ s. s.write_faults) IsFaultless self.old self.new }
        ensures only_missing { IsFaultless self.old →
            OnErr result (IsMissing (Some self.old.files) name.now) }
    {
        let Some(bytes) = self.files.get(name) else {
            return Err(Failed);
        };
        if self.fetches.fails() {
            self.fetch_faults.raise();
            return Err(Failed);
        }
        Ok(copy_front(bytes, at, self.grain, buf))
    }

    fn start(&mut self, name: &str) -> Result<(), WriteFail>
        // A start fails if and only if its number is listed, and the count rises there. One that is
        // out of memory has a number too, and is no fault.
        ensures fails { (result ≡ Err WriteFail.Failed) ↔ IsTrue (is_failing self.old.starts) }
        ensures counted { MatchResult result
            (λ _. self.new ≡ after_start self.old (map.insert self.old.files name.now []))
            (λ _. self.new ≡ after_start self.old self.old.files) }

        // What every shelf does.
        ensures files { MatchResult result
            (λ _. Becomes (Some self.old.files) (Some self.new.files)
            (λ m. map.insert m name.now []))
            (λ _. self.new.files ≡ self.old.files) }
        ensures failed { IsErrOf result WriteFail.Failed →
            Rose self.old.write_faults self.new.write_faults }
        ensures uncounted { result ≢ Err WriteFail.Failed →
            self.new.write_faults ≡ self.old.write_faults }
        ensures counts { CountsFaults (λ s. s.write_faults) IsFaultless self.old self.new }
        ensures fetches { self.new.fetch_faults ≡ self.old.fetch_faults }
        ensures only_memory { IsFaultless self.old → result ≢ Err WriteFail.Failed }
    {
        if self.starts.fails() {
            self.write_faults.raise();
            return Err(WriteFail::Failed);
        }
        match self.files.insert(name, &[]) {
            Ok(()) => Ok(()),
            Err(NoMemory) => Err(WriteFail::NoMemory),
        }
    }

    fn append(&mut self, name: &str, piece: &[u8]) -> Result<usize, WriteFail>
        // A file that isn't there is a failure that has no number and is no fault.
        ensures absent { map.get self.old.files name.now ≡ None → result ≡ Err WriteFail.Failed }
        ensures absent_stays { map.get self.old.files name.now ≡ None → self.new ≡ self.old }

        // An append to a file fails if and only if its number is listed, and the count rises there.
        // One that is out of memory has a number too, and is no fault.
        ensures fails { IsSome (map.get self.old.files name.now) →
            ((result ≡ Err WriteFail.Failed) ↔ IsTrue (is_failing self.old.appends)) }
        ensures moved { IfOk result (λ n. n ≡ min self.old.grain (length piece.now)) }
        ensures counted { IsSome (map.get self.old.files name.now) → MatchResult result
            (λ n. self.new
            ≡ after_append self.old (appended self.old.files name.now (take n piece.now)))
            (λ _. self.new ≡ after_append self.old self.old.files) }

        // What every shelf does.
        ensures bound { WritesAtMost result piece.now }
        ensures some { IfOk result (λ n. 0 < length piece.now → 0 < n) }
        ensures files { MatchResult result
            (λ n. Becomes (Some self.old.files) (Some self.new.files)
            (λ m. appended m name.now (take n piece.now)))
            (λ _. self.new.files ≡ self.old.files) }
        ensures missing { IsMissing (Some self.old.files) name.now → IsErr result }
        ensures failed { IsErrOf result WriteFail.Failed →
            Rose self.old.write_faults self.new.write_faults
            ⊎ (IsMissing (Some self.old.files) name.now
            × (self.new.write_faults ≡ self.old.write_faults)) }
        ensures uncounted { result ≢ Err WriteFail.Failed →
            self.new.write_faults ≡ self.old.write_faults }
        ensures counts { CountsFaults (λ s. s.write_faults) IsFaultless self.old self.new }
        ensures fetches { self.new.fetch_faults ≡ self.old.fetch_faults }
        ensures only_missing { IsFaultless self.old → result ≡ Err WriteFail.Failed →
            IsMissing (Some self.old.files) name.now }
    {
        if self.files.get(name).is_none() {
            return Err(WriteFail::Failed);
        }
        if self.appends.fails() {
            self.write_faults.raise();
            return Err(WriteFail::Failed);
        }
        let count = self.grain.min(piece.len());
        match self.files.append(name, &piece[..count]) {
            Ok(()) => Ok(count),
            Err(NoMemory) => Err(WriteFail::NoMemory),
        }
    }
}

/// Copies what fits of the bytes from an offset on, and returns how many bytes that is.
fn copy_front(bytes: &[u8], at: u64, grain: usize, buf: &mut [u8]) -> usize
    ensures count { result ≡ min grain (min (length buf.old) (length bytes.now - at)) }
    ensures copied { buf.new ≡ take result (drop at bytes.now) ++ drop result buf.old }
{
    let start = bytes.len().min(at as usize);
    let rest = &bytes[start..];
    let count = grain.min(buf.len().min(rest.len()));
    buf[..count].copy_from_slice(&rest[..count]);
    count
}
