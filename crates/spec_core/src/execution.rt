//! The instruction of RV32IM that executes in a cycle.
ghost use Rattle.std.specs.Prelude.{◌≡◌, take};
ghost use Rattle.cycle_spec.specs.Choices as spec;
ghost use Rattle.cycle_spec.specs.Flight as flight;

use crate::state::CoreState;
use cycle_spec::{Entry, EntryKind, Executed, Operand};
use inorder_machine::{Stepped, execute};
use rv32_table::Instr;

impl CoreState {
    /// The oldest of the `count` oldest entries that may execute, and what it does.
    pub(crate) fn execution(&self, count: u8) -> Option<Executed>
        ensures { result ≡ spec.execution self.now (take count self.now.flight) }
    {
        let mut execute = None;
        self.put_execution(count, &mut execute);
        execute
    }

    /// The same, in its place, so that it is not copied.
    pub(crate) fn put_execution(&self, count: u8, execute: &mut Option<Executed>)
        ensures { execute.new ≡ spec.execution self.now (take count self.now.flight) }
    {
        match self.table.ready_among(count, &self.registers) {
            None => *execute = None,
            Some(entry) => self.put_executed(entry, execute),
        }
    }

    /// What an entry does, on the registers behind the older ones and on the memory.
    fn put_executed(&self, entry: &Entry, execute: &mut Option<Executed>)
        ensures { execute.new ≡ spec.executed_entry self.now entry.now }
    {
        match entry.kind {
            EntryKind::Local(instr) => {
                *execute = Some(Executed {
                    entry: *entry,
                    outcome: self.outcome_of(entry, &instr),
                });
            }
            EntryKind::Unknown | EntryKind::Nowhere => *execute = None,
        }
    }

    fn outcome_of(&self, entry: &Entry, instr: &Instr) -> Stepped
        ensures { result ≡ spec.outcome_of self.now entry.now instr.now }
    {
        let (first, second) = instr.sources();
        let first = self.source_value(entry.seq, first);
        let second = self.source_value(entry.seq, second);
        execute(&self.memory, entry.pc, entry.word, instr, first, second)
    }

    /// The value of a source of the entry of a number; one that it doesn't read is 0.
    fn source_value(&self, seq: u64, source: Option<u8>) -> u32
        ensures { result ≡ flight.value_or_zero
            (flight.source_behind self.now.params.dual_write self.now.registers
            (flight.older_than seq self.now.flight) source) }
    {
        match source {
            None => 0,
            Some(register) => value_or_zero(self.operand(seq, register)),
        }
    }

    /// A register as the entry of a number reads it.
    pub(crate) fn operand(&self, seq: u64, register: u8) -> Operand
        ensures { result ≡ flight.operand_at self.now.params.dual_write self.now.registers
            self.now.flight seq register }
    {
        self.table.operand(seq, register, &self.registers)
    }
}

pub fn value_or_zero(operand: Operand) -> u32
    ensures { result ≡ flight.value_or_zero operand }
{
    match operand {
        Operand::Here(value) => value,
        Operand::NotYet => 0,
    }
}
