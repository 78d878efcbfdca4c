//! What the blocks of the declarations do (IEEE 1364-2005, 18.2.3).
ghost use Rattle.std.specs.Prelude.{◌≡◌, ◌<◌, ◌≤◌, ◌^◌, None, length};
ghost use Rattle.vcd_text.specs.Codes.{code_from};
ghost use Rattle.vcd_text.specs.Grammar.{var_at, var_sized, var, scope, upscope, block, opened, declaration};
ghost use Rattle.vcd_text.specs.Steps.{DeclaresTo};
ghost use Rattle.vcd_text.specs.Words.{number};

use crate::keyword::Keyword;
use crate::state::{Part, State};
use crate::stop::Stop;
use crate::token::{is_code, is_command, keyword, number, text};
use crate::word::{Word, Words};
use crate::{Variable, VcdCause};
use std::alloc::Global;
use xif_base::{Name, NoMemory};

/// The greatest size of a variable in bits, which is a limit of this reader.
const MAX_SIZE: u64 = 1_048_576;

/// How many scopes may be open, which is a limit of this reader.
const MAX_SCOPES: usize = 64;

impl State {
    /// Takes a token among the declarations, outside a block. It isn't to weigh on the tokens of
    /// the body, of which there are far more.
    #[inline(never)]
    pub fn declaration(&mut self, alloc: Global, at: u64, token: &[u8]) -> Result<(), Stop>
        ensures { DeclaresTo self.old self.new result
            (declaration self.old (record { at = at; text = token.now })) }
    {
        if !is_command(token) {
            return Stop::fault(VcdCause::BadToken, at);
        }
        match keyword(token) {
            Keyword::End => Stop::fault(VcdCause::BadToken, at),
            Keyword::Dump | Keyword::Other => {
                self.part = Part::Skipped { at };
                Ok(())
            }
            keyword => {
                let words = Words::new(alloc);
                self.part = Part::Block { at, keyword, words };
                Ok(())
            }
        }
    }

    /// Takes a block, once its `$end` was read. A fault is at its first token.
    #[inline(never)]
    pub fn block(
        &mut self,
        alloc: Global,
        at: u64,
        keyword: Keyword,
        words: &[Word],
    ) -> Result<(), Stop>
        requires room { length self.old.codes < 2 ^ 32 }
        ensures { DeclaresTo self.old self.new result (block self.old at keyword words.now) }
    {
        match keyword {
            Keyword::Scope => self.scope(alloc, at, words),
            Keyword::Upscope => self.upscope(at),
            Keyword::Var => self.var(alloc, at, words),
            Keyword::EndDefinitions => {
                self.is_declared = true;
                Ok(())
            }
            _ => Ok(()),
        }
    }

    fn scope(&mut self, alloc: Global, at: u64, words: &[Word]) -> Result<(), Stop>
        ensures { DeclaresTo self.old self.new result (scope self.old at words.now) }
    {
        let [_, name, ..] = words else {
            return Stop::fault(VcdCause::BadToken, at);
        };
        if self.scopes.len() >= MAX_SCOPES {
            return Stop::fault(VcdCause::BadToken, at);
        }
        let Some(name) = text(name.as_slice()) else {
            return Stop::fault(VcdCause::BadToken, at);
        };
        self.scopes.push(Name::of(alloc, name)?)?;
        Ok(())
    }

    fn upscope(&mut self, at: u64) -> Result<(), Stop>
        ensures { DeclaresTo self.old self.new result (upscope self.old at) }
    {
        if self.scopes.len() == 0 {
            return Stop::fault(VcdCause::BadToken, at);
        }
        self.scopes.pop();
        Ok(())
    }

    fn var(&mut self, alloc: Global, at: u64, words: &[Word]) -> Result<(), Stop>
        requires room { length self.old.codes < 2 ^ 32 }
        ensures { DeclaresTo self.old self.new result (var self.old at words.now) }
    {
        let [_, size, code, name, ..] = words else {
            return Stop::fault(VcdCause::BadVar, at);
        };
        let Some(size) = number(size.as_slice()) else {
            return Stop::fault(VcdCause::BadVar, at);
        };
        self.var_sized(alloc, at, code.as_slice(), name.as_slice(), size)
    }

    fn var_sized(
        &mut self,
        alloc: Global,
        at: u64,
        code: &[u8],
        name: &[u8],
        size: u64,
    ) -> Result<(), Stop>
        requires room { length self.old.codes < 2 ^ 32 }
        ensures { DeclaresTo self.old self.new result
            (var_sized self.old at code.now name.now (Some size)) }
    {
        if size > MAX_SIZE || !is_code(code) {
            return Stop::fault(VcdCause::BadVar, at);
        }
        match text(name) {
            Some(name) => self.var_at(alloc, at, code, size as u32, name),
            None => Stop::fault(VcdCause::BadVar, at),
        }
    }

    fn var_at(
        &mut self,
        alloc: Global,
        at: u64,
        code: &[u8],
        size: u32,
        name: &str,
    ) -> Result<(), Stop>
        requires room { length self.old.codes < 2 ^ 32 }
        ensures { DeclaresTo self.old self.new result
            (var_at self.old at code.now size name.now (code_from 0 code.now self.old.codes)) }
    {
        let name = self.scopes.full_name(alloc, name)?;
        match self.codes.find(code) {
            None => {
                let number = self.codes.next();
                self.codes.push(alloc, code, size)?;
                self.variables.push(Variable {
                    name,
                    code: number,
                    size,
                })?;
                Ok(())
            }
            Some((number, known)) => {
                if known != size {
                    return Stop::fault(VcdCause::SizeDiffers, at);
                }
                self.variables.push(Variable {
                    name,
                    code: number,
                    size,
                })?;
                Ok(())
            }
        }
    }
}
