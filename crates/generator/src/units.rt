//! The parameters and the units.
ghost use Rattle.std.specs.Prelude.{◌≡◌, IfOk};
ghost use Rattle.coproc_config.specs.Check.{IsLawful};
ghost use Rattle.generator.specs.Generated as spec;

use coproc_config::{Entry, Op, Set};
use std::alloc::Global;
use xif_base::{NoMemory, Params};

/// The parameters of the interface.
pub const PARAMS: Params = Params {
    num_rs: 2,
    id_width: 3,
    rfr_width: 32,
    rfw_width: 32,
    num_harts: 1,
    hartid_width: 1,
    dual_read: 0,
    dual_write: false,
    split: true,
    profile: 1,
};

/// The bits by which an entry takes a word: opcode and funct3.
const MASK: u32 = 0x707f;

/// The coprocessor: one unit with two accumulators.
pub fn set(alloc: Global) -> Result<Set, NoMemory>
    ensures set { IfOk result (λ set. set ≡ spec.set) }
    ensures lawful { IfOk result IsLawful }
{
    let mut set = Set::new(alloc);
    set.unit(2)?;
    set.entry(entry(0x000b, Op::AccAdd, 0, 32))?;
    set.entry(entry(0x100b, Op::ExtractU, 4, 8))?;
    set.entry(entry(0x200b, Op::AccReadLow, 0, 32))?;
    set.entry(entry(0x300b, Op::PairMul, 0, 32))?;
    set.entry(entry(0x400b, Op::PairSum, 0, 32))?;
    set.entry(entry(0x500b, Op::Insert, 0, 8))?;
    set.entry(entry(0x600b, Op::AccReadHigh, 0, 32))?;
    Ok(set)
}

fn entry(matched: u32, op: Op, low: u8, len: u8) -> Entry
    ensures { result ≡ record {
      mask = 28799;
      matched = matched;
      op = op;
      acc = 0;
      low = low;
      len = len;
    } }
{
    Entry {
        mask: MASK,
        matched,
        op,
        acc: 0,
        low,
        len,
    }
}
