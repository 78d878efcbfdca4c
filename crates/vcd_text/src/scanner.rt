//! From bytes to tokens, and what they say.
ghost use Rattle.std.specs.Prelude.{◌≡◌, ◌<◌, ◌≤◌, ◌^◌, ◌+◌, ◌++◌, [], ◌∷◌, ℕ, List, true, take, None, length, OnOk, IfOk, IsErr};
ghost use Rattle.std.specs.List.{fold, list_all};
ghost use Rattle.vcd_text.specs.Words.{is_ink};
ghost use Rattle.vcd_text.specs.declared.item.Item.{Item};
ghost use Rattle.vcd_text.specs.Reading.{go, fault_at_end};
ghost use Rattle.vcd_text.specs.Scanner.{Represents, Steps, TakesTokens, HasRoom, tokens_of, read_by};
ghost use Rattle.vcd_text.specs.Sound.{IsSoundRead, Onward};
ghost use Rattle.vcd_text.specs.Tokens.{rest, token_before};

use crate::codes::Codes;
use crate::scopes::Scopes;
use crate::span::word_len;
use crate::state::{Part, State};
use crate::stop::Stop;
use crate::token::is_white;
use crate::{Declarations, Item, VcdCause, VcdFault};
use std::alloc::Global;
use std::collections::VecDeque;
use std::mem;
use xif_base::NoMemory;

/// Takes a text in, byte by byte, up to its first fault.
#[derive(Drop)]
pub struct Scanner {
    pub alloc: Global,
    /// How many bytes were taken in.
    pub size: u64,
    /// The token that is open.
    pub run: Vec<u8>,
    pub state: State,
    pub fault: Option<VcdFault>,
    /// The items that were not taken.
    pub items: VecDeque<Item>,
}

impl Scanner {
    pub fn new(alloc: Global) -> Scanner
        ensures follows { Represents result [] [] }
        ensures size { result.size ≡ 0 }
        ensures codes { HasRoom result }
        ensures sound { IsSoundRead (read_by result []) }
    {
        Scanner {
            alloc,
            size: 0,
            run: Vec::new(alloc),
            state: State {
                scopes: Scopes::new(alloc),
                codes: Codes::new(alloc),
                variables: Declarations::new(alloc),
                is_declared: false,
                time: 0,
                part: Part::Nothing,
            },
            fault: None,
            items: VecDeque::new(alloc),
        }
    }

    /// Takes the bytes of a piece.
    pub fn bytes(&mut self, piece: &[u8]) -> Result<(), NoMemory>
        requires room { self.old.size + length piece.now < 2 ^ 32 }
        requires codes { HasRoom self.old }
        ensures size { self.new.size ≤ self.old.size + length piece.now }
        ensures codes { OnOk result (HasRoom self.new) }
        ensures follows { OnOk result ((text : List ℕ) (taken : List Item) →
            Represents self.old text taken → Represents self.new (text ++ piece.now) taken) }
        ensures onward { OnOk result (Onward (read_by self.old []) (read_by self.new [])) }
    {
        let mut rest = piece;
        while !rest.is_empty() {
            let (word, more) = rest.split_at(word_len(rest));
            match more.split_first() {
                Some((next, tail)) => {
                    let taken = self.word_and(word, *next, tail)?;
                    rest = &tail[taken..];
                }
                None => {
                    self.word(word)?;
                    return Ok(());
                }
            }
        }
        Ok(())
    }

    /// Takes bytes that aren't white space, the one behind them, and some of the tail behind that.
    /// Returns how many bytes of the tail it took.
    fn word_and(&mut self, word: &[u8], next: u8, tail: &[u8]) -> Result<usize, NoMemory>
        requires room { self.old.size + length word.now + 1 + length tail.now < 2 ^ 32 }
        requires codes { HasRoom self.old }
        requires ink { list_all is_ink word.now ≡ true }
        ensures within { IfOk result (λ taken. taken ≤ length tail.now) }
        ensures size { IfOk result (λ taken.
            self.new.size ≤ self.old.size + length word.now + 1 + taken) }
        ensures short { IsErr result → self.new.size ≤ self.old.size + length word.now + 1 }
        ensures codes { OnOk result (HasRoom self.new) }
        ensures follows { IfOk result (λ n. (text : List ℕ) (taken : List Item) →
            Represents self.old text taken
            → Represents self.new (text ++ word.now ++ next ∷ [] ++ take n tail.now) taken) }
        ensures onward { OnOk result (Onward (read_by self.old []) (read_by self.new [])) }
    {
        if let Some(_) = self.fault {
            return Ok(0);
        }
        if self.run.is_empty() && is_white(next) {
            return self.whole_token(word, tail);
        }
        self.word(word)?;
        self.byte(next)?;
        Ok(0)
    }

    /// Takes bytes that aren't white space. Behind a fault nothing is looked at.
    fn word(&mut self, word: &[u8]) -> Result<(), NoMemory>
        requires room { self.old.size + length word.now < 2 ^ 32 }
        requires codes { HasRoom self.old }
        requires ink { list_all is_ink word.now ≡ true }
        ensures size { self.new.size ≤ self.old.size + length word.now }
        ensures codes { OnOk result (HasRoom self.new) }
        ensures follows { OnOk result ((text : List ℕ) (taken : List Item) →
            Represents self.old text taken → Represents self.new (text ++ word.now) taken) }
        ensures onward { OnOk result (Onward (read_by self.old []) (read_by self.new [])) }
    {
        if let Some(_) = self.fault {
            return Ok(());
        }
        self.run.extend_from_slice(word)?;
        self.size += word.len() as u64;
        Ok(())
    }

    /// Takes a whole token, and the white space behind it, where none is open. Returns how many
    /// bytes of the tail behind that it took, as `token` does.
    fn whole_token(&mut self, token: &[u8], tail: &[u8]) -> Result<usize, NoMemory>
        requires sound { self.old.fault ≡ None }
        requires run { self.old.run.items ≡ [] }
        requires room { self.old.size + length token.now + 1 + length tail.now < 2 ^ 32 }
        requires codes { HasRoom self.old }
        ensures within { IfOk result (λ taken. taken ≤ length tail.now) }
        ensures short { IsErr result → self.new.size ≤ self.old.size + length token.now + 1 }
        ensures codes { OnOk result (HasRoom self.new) }
        ensures takes { IfOk result (λ n.
            TakesTokens self.old self.new token.now (take n tail.now)) }
    {
        let taken = self.token(self.size + token.len() as u64, token, tail)?;
        self.size += token.len() as u64 + 1 + taken as u64;
        Ok(taken)
    }

    /// Takes a byte. Behind a fault nothing is looked at.
    fn byte(&mut self, byte: u8) -> Result<(), NoMemory>
        requires room { self.old.size < 2 ^ 32 }
        requires codes { HasRoom self.old }
        ensures size { self.new.size ≤ self.old.size + 1 }
        ensures codes { OnOk result (HasRoom self.new) }
        ensures follows { OnOk result ((text : List ℕ) (taken : List Item) →
            Represents self.old text taken → Represents self.new (text ++ byte ∷ []) taken) }
        ensures onward { OnOk result (Onward (read_by self.old []) (read_by self.new [])) }
    {
        if let Some(_) = self.fault {
            return Ok(());
        }
        self.sound_byte(byte)?;
        Ok(())
    }

    /// Takes a byte that no fault is before.
    fn sound_byte(&mut self, byte: u8) -> Result<(), NoMemory>
        requires room { self.old.size < 2 ^ 32 }
        requires sound { self.old.fault ≡ None }
        requires codes { HasRoom self.old }
        ensures size { self.new.size ≤ self.old.size + 1 }
        ensures codes { OnOk result (HasRoom self.new) }
        ensures steps { OnOk result (Steps self.old self.new byte) }
    {
        if is_white(byte) {
            self.end_token()?;
        } else {
            self.run.push(byte)?;
        }
        self.size += 1;
        Ok(())
    }

    /// Ends the token that is open, if there is one.
    pub fn end_token(&mut self) -> Result<(), NoMemory>
        requires sound { self.old.fault ≡ None }
        requires room { self.old.size < 2 ^ 32 }
        requires codes { HasRoom self.old }
        ensures size { self.new.size ≡ self.old.size }
        ensures codes { OnOk result (HasRoom self.new) }
        ensures run { OnOk result (self.new.run.items ≡ []) }
        ensures read { OnOk result ((taken : List Item) →
            read_by self.new taken ≡ fold go (read_by self.old taken)
            (token_before self.old.size self.old.run.items)) }
        ensures onward { OnOk result (Onward (read_by self.old []) (read_by self.new [])) }
    {
        let mut run = mem::replace(&mut self.run, Vec::new(self.alloc));
        self.token(self.size, &run, &[])?;
        // The next token that is cut in two gets this one's memory.
        run.clear();
        self.run = run;
        Ok(())
    }

    /// Reads a token that ends before an offset, if it has a byte. White space stands behind it,
    /// and behind that a tail. If the token is the digits of a change, and the tail begins with the
    /// code, that may be read too. Returns how many bytes of the tail were read.
    fn token(&mut self, end: u64, token: &[u8], tail: &[u8]) -> Result<usize, NoMemory>
        requires sound { self.old.fault ≡ None }
        requires room { end < 2 ^ 32 }
        requires codes { length self.old.state.codes < 2 ^ 32 }
        ensures within { IfOk result (λ taken. taken ≤ length tail.now) }
        ensures size { self.new.size ≡ self.old.size }
        ensures run { self.new.run ≡ self.old.run }
        ensures codes { OnOk result
            (length self.new.state.codes ≤ length self.old.state.codes + length token.now) }
        ensures whole { IfOk result (λ n. rest [] (take n tail.now) ≡ []) }
        ensures read { IfOk result (λ n. (taken : List Item) →
            read_by self.new taken ≡ fold go (read_by self.old taken)
            (tokens_of end token.now (take n tail.now))) }
    {
        if token.is_empty() {
            return Ok(0);
        }
        let (step, taken) = self.state.take(self.alloc, end, token, tail);
        match step {
            Ok(None) => {}
            Ok(Some(item)) => self.items.push_back(item)?,
            Err(Stop::Fault(fault)) => self.fault = Some(fault),
            Err(Stop::NoMemory) => return Err(NoMemory),
        }
        Ok(taken)
    }

    /// The fault of a text that ends here.
    pub fn fault_at_end(&self) -> Option<VcdFault>
        ensures { result ≡ fault_at_end self.now.size self.now.state }
    {
        match &self.state.part {
            Part::Nothing => {
                if self.state.is_declared {
                    return None;
                }
                Some(VcdFault {
                    at: self.size,
                    cause: VcdCause::NoDefinitionsEnd,
                })
            }
            Part::Block { at, .. }
            | Part::Skipped { at }
            | Part::Vector { at, .. }
            | Part::Passed { at } => Some(VcdFault {
                at: *at,
                cause: VcdCause::OpenBlock,
            }),
        }
    }
}
