//! The delays of a simulation's transactions.
ghost use Rattle.std.specs.Prelude.{◌≡◌, ◌↔◌, IfOk, IsOk};
ghost use Rattle.xif_drive.specs.Scripts as spec;
ghost use Rattle.xif_drive.specs.Scripts.{IsLawful, IsLawfulList};

use crate::delays::Delays;
use std::alloc::Global;
use std::marker::Model;
use xif_base::NoMemory;

/// The longest list of a lawful script.
const LONGEST: usize = 64;

/// The greatest delay of a lawful script, in cycles.
const GREATEST_DELAY: u16 = 200;

/// The delays of a script, in cycles, for the transactions of each kind in turn.
#[derive(Debug, Drop)]
pub struct ScriptLists {
    /// Until the coprocessor is ready for an instruction.
    pub issue: Delays,
    /// Until it is ready for registers.
    pub register: Delays,
    /// Until the second and the third operand are valid.
    pub operand: Delays,
    /// Until it offers a result that is ready.
    pub result: Delays,
    /// Until the core is ready for a result.
    pub take: Delays,
}

/// A script: the lists of delays.
#[derive(Debug, Drop)]
pub struct Script {
    lists: ScriptLists,
}

/// Why a list of a script isn't lawful.
#[derive(Clone, Copy, Debug, PartialEq, Eq)]
pub enum ScriptCause {
    /// It has no delay.
    EmptyList,
    /// It has more than 64 delays.
    LongList,
    /// One of its delays is above 200.
    BigDelay,
}

/// The first fault of a script.
#[derive(Clone, Copy, Debug, PartialEq, Eq)]
pub struct ScriptFault {
    pub cause: ScriptCause,
    /// The number of the list: 0 is `issue`, then `register`, `operand`, `result` and `take`.
    pub list: u8,
}

impl Model for Script {
    ghost use Rattle.xif_drive.specs.Scripts.{Lists};

    ghost Value = { Lists };

    ghost view = { λ s. record {
      issue = s.lists.issue;
      register = s.lists.register;
      operand = s.lists.operand;
      result = s.lists.result;
      take = s.lists.take;
    } };
}

impl Script {
    /// Copies the lists.
    pub fn new(alloc: Global, lists: &ScriptLists) -> Result<Script, NoMemory>
        ensures { IfOk result (λ script. script ≡ record {
          issue = lists.now.issue;
          register = lists.now.register;
          operand = lists.now.operand;
          result = lists.now.result;
          take = lists.now.take;
        }) }
    {
        Ok(Script {
            lists: ScriptLists {
                issue: lists.issue.copy(alloc)?,
                register: lists.register.copy(alloc)?,
                operand: lists.operand.copy(alloc)?,
                result: lists.result.copy(alloc)?,
                take: lists.take.copy(alloc)?,
            },
        })
    }

    /// A copy, which does not change with this script.
    pub fn copy(&self, alloc: Global) -> Result<Script, NoMemory>
        ensures { IfOk result (λ script. script ≡ self.now) }
    {
        Script::new(alloc, &self.lists)
    }

    /// The first fault, list by list, and in each list in the order of `ScriptCause`.
    pub fn check(&self) -> Result<(), ScriptFault>
        ensures first { result ≡ spec.checked_by (spec.script_fault self.now) }
        ensures lawful { IsOk result ↔ IsLawful self.now }
    {
        check_list(&self.lists.issue, 0)?;
        check_list(&self.lists.register, 1)?;
        check_list(&self.lists.operand, 2)?;
        check_list(&self.lists.result, 3)?;
        check_list(&self.lists.take, 4)
    }

    /// The delay of the issue transaction of a number, counted from 0.
    pub fn issue(&self, k: u64) -> u16
        requires { IsLawful self.now }
        ensures { result ≡ spec.delay_of self.now.issue k }
    {
        self.lists.issue.of(k)
    }

    /// The delay of the register transaction of a number.
    pub fn register(&self, k: u64) -> u16
        requires { IsLawful self.now }
        ensures { result ≡ spec.delay_of self.now.register k }
    {
        self.lists.register.of(k)
    }

    /// The delay of the operands of the register transaction of a number.
    pub fn operand(&self, k: u64) -> u16
        requires { IsLawful self.now }
        ensures { result ≡ spec.delay_of self.now.operand k }
    {
        self.lists.operand.of(k)
    }

    /// The delay of the result of the accepted instruction of a number.
    pub fn result(&self, k: u64) -> u16
        requires { IsLawful self.now }
        ensures { result ≡ spec.delay_of self.now.result k }
    {
        self.lists.result.of(k)
    }

    /// The delay of the core in the result transaction of a number.
    pub fn take(&self, k: u64) -> u16
        requires { IsLawful self.now }
        ensures { result ≡ spec.delay_of self.now.take k }
    {
        self.lists.take.of(k)
    }

    /// The greatest of all delays.
    pub fn largest(&self) -> u16
        requires { IsLawful self.now }
        ensures { result ≡ spec.largest_of self.now }
    {
        let largest = self.lists.issue.largest(0);
        let largest = self.lists.register.largest(largest);
        let largest = self.lists.operand.largest(largest);
        let largest = self.lists.result.largest(largest);
        self.lists.take.largest(largest)
    }
}

fn check_list(delays: &Delays, list: u8) -> Result<(), ScriptFault>
    ensures first { result ≡ spec.checked_by (spec.list_fault delays.now list) }
    ensures lawful { IsOk result ↔ IsLawfulList delays.now }
{
    let count = delays.as_slice().len();
    let cause = if count == 0 {
        ScriptCause::EmptyList
    } else if count > LONGEST {
        ScriptCause::LongList
    } else if delays.largest(0) > GREATEST_DELAY {
        ScriptCause::BigDelay
    } else {
        return Ok(());
    };
    Err(ScriptFault { cause, list })
}
