//! What a token does.
ghost use Rattle.std.specs.Prelude.{◌≡◌, ◌<◌, ◌^◌, Some, length, if◌then◌else◌};
ghost use Rattle.vcd_text.specs.Grammar.{change, time_of, scalar, vector, command, body, goes, with_part, kept, block, in_part, step};
ghost use Rattle.vcd_text.specs.declared.state.Part.TheVariants.{Nothing, Block};
ghost use Rattle.vcd_text.specs.Steps.{StepsTo, DeclaresTo};
ghost use Rattle.vcd_text.specs.Words.{number, digit, digits, is_end};

use crate::keyword::Keyword;
use crate::state::{Part, State};
use crate::stop::Stop;
use crate::token::{digits, is_end, keyword, number, one_digit};
use crate::word::{Word, Words};
use crate::{Digits, Item, VcdCause};
use std::alloc::Global;
use std::mem;
use xif_base::NoMemory;

/// The words of a block that are looked at.
const KEPT_WORDS: usize = 4;

impl State {
    /// Takes a token, which begins at an offset.
    pub fn step(&mut self, alloc: Global, at: u64, token: &[u8]) -> Result<Option<Item>, Stop>
        requires room { length self.old.codes < 2 ^ 32 }
        ensures { StepsTo self.old self.new result
            (step self.old (record { at = at; text = token.now })) }
    {
        // Most tokens stand outside a part, and leave it as it is.
        if let Part::Nothing = self.part {
            return self.outside(alloc, at, token);
        }
        match mem::replace(&mut self.part, Part::Nothing) {
            Part::Nothing => self.outside(alloc, at, token),
            Part::Block {
                at: opened_at,
                keyword,
                words,
            } => {
                self.in_block(alloc, opened_at, keyword, words, token)?;
                Ok(None)
            }
            Part::Skipped { at: opened_at } => {
                if !is_end(token) {
                    self.part = Part::Skipped { at: opened_at };
                }
                Ok(None)
            }
            Part::Vector {
                at: opened_at,
                digits,
            } => self.change(opened_at, digits, at, token),
            Part::Passed { .. } => Ok(None),
        }
    }

    /// Takes a token of a block that was opened at an offset and has these words so far.
    #[inline(never)]
    fn in_block(
        &mut self,
        alloc: Global,
        at: u64,
        keyword: Keyword,
        mut words: Words,
        token: &[u8],
    ) -> Result<(), Stop>
        requires room { length self.old.codes < 2 ^ 32 }
        ensures { DeclaresTo self.old self.new result
            (if is_end token.now then block self.old at keyword words
            else goes (with_part self.old (Block at keyword (kept words token.now)))) }
    {
        if is_end(token) {
            return self.block(alloc, at, keyword, words.as_slice());
        }
        if words.len() < KEPT_WORDS {
            words.push(Word::copy(alloc, token)?)?;
        }
        self.part = Part::Block { at, keyword, words };
        Ok(())
    }

    /// Takes a token outside a part.
    fn outside(&mut self, alloc: Global, at: u64, token: &[u8]) -> Result<Option<Item>, Stop>
        ensures { StepsTo self.old self.new result (in_part Nothing self.old
            (record { at = at; text = token.now })) }
    {
        if self.is_declared {
            self.body(alloc, at, token)
        } else {
            self.declaration(alloc, at, token)?;
            Ok(None)
        }
    }

    /// Takes a token of the body, outside a part.
    fn body(&mut self, alloc: Global, at: u64, token: &[u8]) -> Result<Option<Item>, Stop>
        ensures { StepsTo self.old self.new result (body self.old at token.now) }
    {
        let [first, rest @ ..] = token else {
            return Stop::fault(VcdCause::BadToken, at);
        };
        match *first {
            b'#' => self.time(at, rest),
            b'b' | b'B' => self.vector(alloc, at, rest),
            b'r' | b'R' | b's' | b'S' => {
                self.part = Part::Passed { at };
                Ok(None)
            }
            b'$' => self.command(at, keyword(token)),
            first => self.scalar(at, first, rest),
        }
    }

    fn time(&mut self, at: u64, digits: &[u8]) -> Result<Option<Item>, Stop>
        ensures { StepsTo self.old self.new result (time_of self.old at (number digits.now)) }
    {
        let Some(time) = number(digits) else {
            return Stop::fault(VcdCause::BadTime, at);
        };
        if time < self.time {
            return Stop::fault(VcdCause::TimeBack, at);
        }
        self.time = time;
        Ok(Some(Item::Time(time)))
    }

    // Nearly all vectors are taken by `take`, with their codes.
    #[inline(never)]
    fn vector(&mut self, alloc: Global, at: u64, bytes: &[u8]) -> Result<Option<Item>, Stop>
        ensures { StepsTo self.old self.new result (vector self.old at (digits bytes.now)) }
    {
        let Some(digits) = digits(alloc, bytes)? else {
            return Stop::fault(VcdCause::BadToken, at);
        };
        if digits.len() == 0 {
            return Stop::fault(VcdCause::BadToken, at);
        }
        self.part = Part::Vector { at, digits };
        Ok(None)
    }

    fn command(&mut self, at: u64, keyword: Keyword) -> Result<Option<Item>, Stop>
        ensures { StepsTo self.old self.new result (command self.old at keyword) }
    {
        match keyword {
            Keyword::End | Keyword::Dump => Ok(None),
            Keyword::Other => {
                self.part = Part::Skipped { at };
                Ok(None)
            }
            _ => Stop::fault(VcdCause::BadToken, at),
        }
    }

    fn scalar(&self, at: u64, first: u8, code: &[u8]) -> Result<Option<Item>, Stop>
        ensures { StepsTo self.now self.now result (scalar self.now at (digit first) code.now) }
    {
        let Some(found) = one_digit(first) else {
            return Stop::fault(VcdCause::BadToken, at);
        };
        if code.is_empty() {
            return Stop::fault(VcdCause::BadToken, at);
        }
        self.change(at, Digits::short(found), at, code)
    }

    /// Returns a change of a code. The code is tested before the width.
    #[inline(always)]
    pub fn change(
        &self,
        at: u64,
        digits: Digits,
        code_at: u64,
        code: &[u8],
    ) -> Result<Option<Item>, Stop>
        ensures { StepsTo self.now self.now result
            (change self.now at digits code_at code.now) }
    {
        let Some((code, size)) = self.codes.find(code) else {
            return Stop::fault(VcdCause::UnknownCode, code_at);
        };
        if digits.len() as u64 > u64::from(size) {
            return Stop::fault(VcdCause::TooWide, at);
        }
        Ok(Some(Item::Change { code, digits }))
    }
}
