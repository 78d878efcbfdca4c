//! The instruction table of RV32IM: which instruction a word is, what it reads and writes, and what
//! it does (RISC-V Unprivileged ISA, version 20191213, chapters 2 and 7).
//!
//! The layer above uses `decode`, the calls on `Instr`, then `alu`, `branch` or `access` by the
//! kind, the fields of any word, and `sign_extend`. The table itself, a line a row, is `row_line`
//! in specs/Table.antt; what the calls return by it is in specs/Instr.antt. laws.rt has what holds
//! of the table: each word is of one row, and the columns for registers are those of the formats.
#![tactic(auto)]

mod arithmetic;
mod control;
mod decoder;
mod fields;
mod instr;
pub mod laws;
mod memory;
mod rows;
mod word;

pub use arithmetic::alu;
pub use control::{Next, branch};
pub use decoder::decode;
pub use fields::{rd_field, rs_field};
pub use instr::{Access, Instr, Kind};
pub use memory::access;
pub use rows::Row;
pub use word::sign_extend;
