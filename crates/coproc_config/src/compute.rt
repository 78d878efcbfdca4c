//! What the operations compute.
ghost use Rattle.std.specs.Prelude.{◌≡◌, ◌≤◌, ◌<◌, ◌+◌, ◌*◌, ◌%◌, ◌^◌, ◌+ℤ◌, ◌*ℤ◌, pos, IsTrue};
ghost use Rattle.rv32_table.specs.Word.{signed, sign_extended};
ghost use Rattle.coproc_config.specs.Bits.{low_half as low_half_of, high_half as high_half_of, field, with_field, reversed, ones as ones_of, merged, modulo_64};
ghost use Rattle.coproc_config.specs.Table.{operation_line, write_flags, result_bits};
ghost use Rattle.coproc_config.specs.Check.{has_field};
ghost use Rattle.coproc_config.specs.Apply.{inputs};

use crate::operation::{Entry, Op};
use rv32_table::sign_extend;

/// The lanes of an instruction, 64 bits each: a register in the low half, and the odd register of a
/// pair in the high half.
#[derive(Clone, Copy, Debug, PartialEq, Eq)]
pub struct Operands {
    pub lanes: [u64; 3],
}

impl Entry {
    /// The result, where `q` is the accumulator that the entry names, and anything where it names
    /// none.
    pub(crate) fn result(&self, operands: &Operands, q: u64) -> u64
        requires { IsTrue (has_field (operation_line self.now.op).names self.now.low self.now.len) }
        ensures value { result
            ≡ (operation_line self.now.op).result (inputs self.now q operands.now.lanes) }
        ensures bits { result < 2 ^ result_bits (write_flags (operation_line self.now.op).writes) }
    {
        let [wide_a, wide_b, wide_c] = operands.lanes;
        let a = low_half(wide_a);
        let b = low_half(wide_b);
        match self.op {
            Op::ExtractU => u64::from(extract(a, self.low, self.len)),
            Op::ExtractS => u64::from(extract_signed(a, self.low, self.len)),
            Op::Insert => u64::from(insert(a, b, self.low, self.len)),
            Op::Reverse => u64::from(reverse(a)),
            Op::Ones => u64::from(ones(a)),
            Op::Merge => u64::from(merge(a, b, low_half(wide_c))),
            Op::AccClear | Op::AccAdd | Op::AccMac => 0,
            Op::AccReadLow | Op::AccSwap => u64::from(low_half(q)),
            Op::AccReadHigh => u64::from(high_half(q)),
            Op::PairAdd => wide_a.wrapping_add(wide_b),
            Op::PairMul => multiply(a, b),
            Op::PairRead => q,
            Op::PairSum => u64::from(a.wrapping_add(high_half(wide_a))),
        }
    }

    /// What the accumulator `q` becomes.
    pub(crate) fn accumulator(&self, operands: &Operands, q: u64) -> u64
        ensures { result
            ≡ (operation_line self.now.op).accumulator (inputs self.now q operands.now.lanes) }
    {
        let a = low_half(operands.lanes[0]);
        match self.op {
            Op::AccClear => 0,
            Op::AccAdd => q.wrapping_add(u64::from(a)),
            Op::AccMac => accumulate(q, a, low_half(operands.lanes[1])),
            Op::AccSwap => u64::from(a),
            _ => q,
        }
    }
}

fn low_half(lane: u64) -> u32
    ensures { result ≡ low_half_of lane }
{
    (lane & 0xffff_ffff) as u32
}

fn high_half(lane: u64) -> u32
    ensures { result ≡ high_half_of lane }
{
    (lane >> 32) as u32
}

/// The low bits of a word, at most 32.
fn low_bits(word: u32, count: u8) -> u32
    requires { count ≤ 32 }
    ensures { result ≡ word % 2 ^ count }
{
    (u64::from(word) & ((1 << count) - 1)) as u32
}

fn extract(word: u32, low: u8, len: u8) -> u32
    requires some { 0 < len }
    requires within { low + len ≤ 32 }
    ensures value { result ≡ field word low len }
    ensures fits { result < 2 ^ len }
{
    low_bits(word >> low, len)
}

fn extract_signed(word: u32, low: u8, len: u8) -> u32
    requires some { 0 < len }
    requires within { low + len ≤ 32 }
    ensures { result ≡ sign_extended len (field word low len) }
{
    sign_extend(extract(word, low, len), len)
}

/// A word with bits replaced by the low bits of a value.
fn insert(value: u32, word: u32, low: u8, len: u8) -> u32
    requires some { 0 < len }
    requires within { low + len ≤ 32 }
    ensures { result ≡ with_field word low len value }
{
    insert_wide(value, word, low, len) as u32
}

/// The same in 64 bits, which can be shifted by 32.
fn insert_wide(value: u32, word: u32, low: u8, len: u8) -> u64
    requires some { 0 < len }
    requires within { low + len ≤ 32 }
    ensures { result ≡ with_field word low len value }
{
    let above = u64::from(word) >> (low + len) << (low + len);
    let inside = u64::from(low_bits(value, len)) << low;
    above + inside + u64::from(low_bits(word, low))
}

fn reverse(word: u32) -> u32
    ensures { result ≡ reversed 32 word }
{
    word.reverse_bits()
}

fn ones(word: u32) -> u32
    ensures { result ≡ ones_of 32 word }
{
    word.count_ones()
}

/// The bits of `a` where `chooser` has 1, and those of `b` where it has 0.
fn merge(a: u32, b: u32, chooser: u32) -> u32
    ensures { result ≡ merged 32 a b chooser }
{
    (a & chooser) | (b & !chooser)
}

fn multiply(a: u32, b: u32) -> u64
    ensures { result ≡ a * b }
{
    u64::from(a) * u64::from(b)
}

/// An accumulator after a signed product is added to it.
fn accumulate(q: u64, a: u32, b: u32) -> u64
    ensures { result ≡ modulo_64 (pos q +ℤ (signed a *ℤ signed b)) }
{
    q.wrapping_add(signed_product(a, b).cast_unsigned())
}

fn signed_product(a: u32, b: u32) -> i64
    ensures { result ≡ signed a *ℤ signed b }
{
    i64::from(a.cast_signed()) * i64::from(b.cast_signed())
}
