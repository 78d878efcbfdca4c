//! Reads a text in pieces.
ghost use Rattle.std.specs.Prelude.{◌≡◌, ◌<◌, ◌≤◌, ◌^◌, ◌+◌, ◌++◌, ◌∷◌, [], ℕ, List, None, Some, true, false, if◌then◌else◌, length, slice_get, IfSome, OnOk, OnErr, MatchOption};
ghost use Rattle.std.specs.Option.{option_map};
ghost use Rattle.vcd_text.specs.declared.fault.VcdFault.{VcdFault};
ghost use Rattle.vcd_text.specs.declared.item.Item.{Item};
ghost use Rattle.vcd_text.specs.declared.declaration.Variable.{Variable};
ghost use Rattle.vcd_text.specs.Sizes.{AreConsistent, FitsDeclared};
ghost use Rattle.vcd_text.specs.Reader.{Represents, Fed, Closed, IsFaulty, after_take};

use crate::scanner::Scanner;
use crate::{Declarations, FeedFail, Item};
use std::alloc::Global;
use std::marker::Model;
use xif_base::NoMemory;

/// Reads a text in pieces: returns its items in order, its declarations, and its first fault.
#[derive(Drop)]
pub struct Reader {
    scanner: Scanner,
    has_failed: bool,
    is_closed: bool,
}

impl Model for Reader {
    ghost use Rattle.vcd_text.specs.Reader.{Progress};
    ghost use Rattle.vcd_text.specs.Scanner.{progress_of};
    ghost use Rattle.vcd_text.specs.Sound.{IsKept};

    ghost Value = { Progress };

    ghost view = { λ r. progress_of r.scanner r.has_failed r.is_closed };

    ghost invariant = { λ r. IsKept r.scanner r.has_failed };
}

impl Reader {
    /// A reader before any text.
    pub fn new(alloc: Global) -> Reader
        ensures represents { Represents result [] [] }
        ensures size { result.size ≡ 0 }
        ensures not_closed { result.is_closed ≡ false }
    {
        Reader {
            scanner: Scanner::new(alloc),
            has_failed: false,
            is_closed: false,
        }
    }

    /// Takes the next piece of the text in. The fault is that of the tokens which are complete by
    /// then; once it is reported, every later call reports it. Once a call ran out of memory, every
    /// later call says so.
    pub fn feed(&mut self, piece: &[u8]) -> Result<(), FeedFail>
        requires not_closed { self.old.is_closed ≡ false }
        requires room { self.old.has_failed ≡ false → self.old.size + length piece.now < 2 ^ 32 }
        ensures fed { (text : List ℕ) (taken : List Item) →
            Represents self.old text taken → Fed self.new (text ++ piece.now) taken result }
        ensures fault { (f : VcdFault) →
            IsFaulty self.old f → (result ≡ Err (FeedFail.Vcd f)) × (self.new ≡ self.old) }
        ensures failed { self.old.has_failed ≡ true →
            (result ≡ Err FeedFail.NoMemory) × (self.new ≡ self.old) }
        ensures declared { (vs : List Variable) → self.old.read.variables ≡ Some vs →
            self.new.has_failed ≡ false → self.new.read.variables ≡ Some vs }
        ensures size { self.new.size ≤ self.old.size + length piece.now }
        ensures not_closed { self.new.is_closed ≡ false }
    {
        if self.has_failed {
            return Err(FeedFail::NoMemory);
        }
        if let Some(fault) = self.scanner.fault {
            return Err(FeedFail::Vcd(fault));
        }
        match self.scanner.bytes(piece) {
            Ok(()) => {}
            Err(NoMemory) => {
                self.has_failed = true;
                return Err(FeedFail::NoMemory);
            }
        }
        match self.scanner.fault {
            Some(fault) => Err(FeedFail::Vcd(fault)),
            None => Ok(()),
        }
    }

    /// Ends the text, and reports its fault if it has one.
    pub fn close(&mut self) -> Result<(), FeedFail>
        requires not_closed { self.old.is_closed ≡ false }
        ensures closed { (text : List ℕ) (taken : List Item) →
            Represents self.old text taken → Closed self.new text taken result }
        ensures fault { (f : VcdFault) →
            IsFaulty self.old f → (result ≡ Err (FeedFail.Vcd f)) × (self.new ≡ self.old) }
        ensures failed { self.old.has_failed ≡ true →
            (result ≡ Err FeedFail.NoMemory) × (self.new ≡ self.old) }
        ensures declared { (vs : List Variable) → self.old.read.variables ≡ Some vs →
            self.new.has_failed ≡ false → self.new.read.variables ≡ Some vs }
        ensures ended { OnOk result (self.new.is_closed ≡ true) }
        ensures alive { OnOk result (self.new.has_failed ≡ false) }
        ensures not_closed { OnErr result (self.new.is_closed ≡ false) }
        ensures faulty { (f : VcdFault) → result ≡ Err (FeedFail.Vcd f) → IsFaulty self.new f }
        ensures size { self.new.size ≡ self.old.size }
    {
        if self.has_failed {
            return Err(FeedFail::NoMemory);
        }
        if let Some(fault) = self.scanner.fault {
            return Err(FeedFail::Vcd(fault));
        }
        match self.scanner.end_token() {
            Ok(()) => {}
            Err(NoMemory) => {
                self.has_failed = true;
                return Err(FeedFail::NoMemory);
            }
        }
        if let Some(fault) = self.scanner.fault {
            return Err(FeedFail::Vcd(fault));
        }
        match self.scanner.fault_at_end() {
            Some(fault) => {
                self.scanner.fault = Some(fault);
                Err(FeedFail::Vcd(fault))
            }
            None => {
                self.is_closed = true;
                Ok(())
            }
        }
    }

    /// The next item that was read and not taken.
    pub fn take(&mut self) -> Option<Item>
        ensures item { result
            ≡ (if self.old.has_failed then None else slice_get self.old.read.items 0) }
        ensures rest { self.new ≡ after_take self.old }
        ensures represents { (text : List ℕ) (taken : List Item) → Represents self.old text taken →
            MatchOption result (Represents self.new text taken)
            (λ item. Represents self.new text (taken ++ item ∷ [])) }
        ensures fits { (vs : List Variable) →
            self.old.read.variables ≡ Some vs → IfSome result (FitsDeclared vs) }
    {
        if self.has_failed {
            return None;
        }
        self.scanner.items.pop_front()
    }

    /// The variables that the text declares, once the end of the declarations was read.
    pub fn declarations(&self) -> Option<&Declarations>
        ensures variables { option_map (λ d. d.now) result
            ≡ (if self.now.has_failed then None else self.now.read.variables) }
        ensures consistent { IfSome result (λ d. AreConsistent d.now) }
    {
        if self.has_failed || !self.scanner.state.is_declared {
            return None;
        }
        Some(&self.scanner.state.variables)
    }
}
