//! An instruction in flight: dispatched, neither retired nor cut.

use inorder_machine::{StopCause, Store, Write};
use rv32_table::Instr;
use xif_session::Response;

/// What the core knows of the word that it dispatched.
#[derive(Clone, Copy, Debug, PartialEq, Eq)]
pub enum EntryKind {
    /// An instruction of RV32IM, which the core executes itself.
    Local(Instr),
    /// No instruction of RV32IM: it is offered to the coprocessors.
    Unknown,
    /// There is no word: the address is no multiple of 4, or the memory has no word there.
    Nowhere,
}

/// An instruction in flight.
#[derive(Clone, Copy, Debug, PartialEq, Eq)]
pub struct Entry {
    /// Its number among the dispatched instructions.
    pub seq: u64,
    /// Its address.
    pub pc: u32,
    /// Its 32 bits; 0 where there is no word.
    pub word: u32,
    pub kind: EntryKind,
    /// The address that was predicted to follow it.
    pub predicted: u32,
    /// The id of an unknown word on the interface; 0 in other entries, which hold none.
    pub id: u16,
    /// It stops the machine for this cause, once it is the oldest.
    pub stop: Option<StopCause>,
    /// It has executed, or has its result: it retires once it is the oldest.
    pub done: bool,
    /// What it writes to the registers, once it is done.
    pub write: Write,
    /// What it stores, once it is done.
    pub store: Option<Store>,
    /// The address of the instruction that comes next: the one behind it, until it is done.
    pub next: u32,
    /// The coprocessor's answer to an unknown word.
    pub response: Option<Response>,
    /// The coprocessor took its source registers.
    pub operands_sent: bool,
    /// The commit interface told the coprocessor that it is no longer speculative.
    pub released: bool,
}

/// The value of a register as an instruction in flight reads it.
#[derive(Clone, Copy, Debug, PartialEq, Eq)]
pub enum Operand {
    Here(u32),
    /// An older instruction that may write the register isn't done.
    NotYet,
}
