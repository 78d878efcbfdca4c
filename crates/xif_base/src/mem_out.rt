//! An output in memory, for tests: its calls move as few bytes and fail as often as its owner says.
ghost use Rattle.std.specs.Prelude.{◌≡◌, ◌≢◌, ◌≤◌, ◌<◌, ◌++◌, ◌↔◌, Some, [], length, take, min, IfOk, OnErr, IsErrOf, IsTrue, MatchResult};
ghost use Rattle.std.specs.Io.{WritesAtMost};
ghost use Rattle.xif_base.specs.Faults.{Rose, CountsFaults};
ghost use Rattle.xif_base.specs.Calls.{is_failing};
ghost use Rattle.xif_base.specs.MemoryOutput.{new_output, after_put};

use crate::count::{FailingCalls, FaultCount};
use crate::{NoMemory, Out, WriteFail};
use std::alloc::Global;
use std::marker::Model;

/// An output in memory, for tests. A put moves at most `grain` bytes.
#[derive(Drop)]
pub struct MemOut {
    bytes: Vec<u8>,
    grain: usize,
    puts: FailingCalls,
    faults: FaultCount,
}

impl Model for MemOut {
    ghost use Rattle.std.specs.Prelude.{◌≤◌};
    ghost use Rattle.xif_base.specs.MemoryOutput.{OutputState, output_state_code};

    ghost Value = { OutputState };

    ghost coded = { output_state_code };

    ghost view = { λ s. record {
      bytes = s.bytes.items;
      grain = s.grain;
      puts = s.puts;
      faults = s.faults;
    } };

    ghost invariant = { λ s. 1 ≤ s.grain };
}

impl MemOut {
    /// An output with no bytes. `puts` has the numbers, from 0, of the puts that fail.
    pub fn new(alloc: Global, grain: usize, puts: &[u64]) -> Result<MemOut, NoMemory>
        requires { 1 ≤ grain }
        ensures { IfOk result (λ s. s ≡ new_output grain puts.now) }
    {
        Ok(MemOut {
            bytes: Vec::new(alloc),
            grain,
            puts: FailingCalls::new(alloc, puts)?,
            faults: FaultCount::new(),
        })
    }

    /// The bytes put so far.
    pub fn bytes(&self) -> &[u8]
        ensures { result.now ≡ self.now.bytes }
    {
        self.bytes.as_slice()
    }
}

impl Out for MemOut {
    ghost put_bytes = { λ s. Some s.bytes };

    ghost faults = { λ s. s.faults };

    ghost faultless = { λ s. s.puts.failing ≡ [] };

    fn put(&mut self, piece: &[u8]) -> Result<usize, WriteFail>
        // A put fails if and only if its number is listed, and the count rises there.
        ensures fails { (result ≡ Err WriteFail.Failed) ↔ IsTrue (is_failing self.old.puts) }

        // It moves what the grain allows. A put that is out of memory has a number too, and is no
        // fault.
        ensures moved { IfOk result (λ n. n ≡ min self.old.grain (length piece.now)) }
        ensures counted { MatchResult result
            (λ n. self.new ≡ after_put self.old (take n piece.now))
            (λ _. self.new ≡ after_put self.old []) }

        // What every output does.
        ensures bound { WritesAtMost result piece.now }
        ensures some { IfOk result (λ n. 0 < length piece.now → 0 < n) }
        ensures bytes { MatchResult result
            (λ n. self.new.bytes ≡ self.old.bytes ++ take n piece.now)
            (λ _. self.new.bytes ≡ self.old.bytes) }
        ensures failed { IsErrOf result WriteFail.Failed → Rose self.old.faults self.new.faults }
        ensures uncounted { result ≢ Err WriteFail.Failed → self.new.faults ≡ self.old.faults }
        ensures counts { CountsFaults (λ s. s.faults) (λ s. s.puts.failing ≡ []) self.old self.new }
        ensures only_memory { self.old.puts.failing ≡ [] → result ≢ Err WriteFail.Failed }
    {
        if self.puts.fails() {
            self.faults.raise();
            return Err(WriteFail::Failed);
        }
        let count = self.grain.min(piece.len());
        match self.bytes.extend_from_slice(&piece[..count]) {
            Ok(()) => Ok(count),
            Err(_) => Err(WriteFail::NoMemory),
        }
    }
}
