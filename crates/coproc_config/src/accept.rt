//! Which entry takes a word, and the issue response that it gets.
ghost use Rattle.std.specs.Prelude.{◌≡◌, ◌≤◌, ◌<◌, ◌%◌, ◌&&◌, ℕ, Some, length, find, slice_get, nat_lt, IfSome, IsTrue};
ghost use Rattle.std.specs.Option.{option_map};
ghost use Rattle.xif_base.specs.Params.{IsInRange};
ghost use Rattle.xif_base.specs.Flags.{even_bit, odd_bit};
ghost use Rattle.coproc_config.specs.Table.{operation_line, write_flags as write_flags_of};
ghost use Rattle.coproc_config.specs.Set.{places_of};
ghost use Rattle.coproc_config.specs.Check.{IsLawful};
ghost use Rattle.rv32_table.specs.Instr.{rd_field as rd_field_of, source_field};
ghost use Rattle.coproc_config.specs.Accept.{is_even, can_read, can_write, takes, flag_of, read_flags as read_flags_of, hit_at, hit_of, entry_at, HasFlagsOf, IsAllowed};

use crate::operation::{Entry, Reads, Writes};
use crate::set::{Set, Unit};
use bitflags::Flags;
use rv32_table::{rd_field, rs_field};
use xif_base::{Params, ReadFlags, WriteFlags};

/// The entry that takes a word, by the number of its unit and its own number there, both from 0,
/// and the issue response (CV-X-IF 1.0.0, section "Issue interface").
#[derive(Clone, Copy, Debug, PartialEq, Eq)]
pub struct Hit {
    pub unit: u8,
    pub entry: u8,
    /// The halves of lanes that the instruction reads.
    pub register_read: ReadFlags,
    /// The registers that it writes.
    pub writeback: WriteFlags,
}

impl Set {
    /// The first entry, in unit order and then entry order, that matches the word and that the
    /// parameters allow: each lane that it reads is there, pairs are read below X_DUALREAD from
    /// even registers, and a pair is written only with X_DUALWRITE, to an even register. `None` if
    /// and only if there is no such entry: the word is then not accepted.
    pub fn accept(&self, params: &Params, word: u32) -> Option<Hit>
        requires lawful { IsLawful self.now }
        requires params { IsInRange params.now }
        ensures first { result ≡ hit_of self.now params.now word }
        ensures flags { IfSome result
            (λ hit. HasFlagsOf (entry_at self.now hit) params.now word hit) }
        ensures allowed { IfSome result (IsAllowed params.now word) }

        // A pair is written to an even register.
        ensures pair { IfSome result (λ hit. hit.writeback.0 ≡ 3 → rd_field_of word % 2 ≡ 0) }
    {
        for i in 0..self.len() {
            if let Some(hit) = self.get(i).accept(i as u8, params, word) {
                return Some(hit);
            }
        }
        None
    }
}

impl Unit {
    /// The same among the entries of the unit with this number.
    fn accept(&self, unit: u8, params: &Params, word: u32) -> Option<Hit>
        requires few { length self.now.entries ≤ 32 }
        requires params { IsInRange params.now }
        ensures first { result ≡ option_map (hit_at params.now)
            (find (λ place. takes params.now word place.row) (places_of (unit, self.now))) }
        ensures unit { IfSome result (λ hit. hit.unit ≡ unit) }
        ensures flags { IfSome result
            (λ hit. HasFlagsOf (slice_get self.now.entries hit.entry) params.now word hit) }
    {
        for i in 0..self.len() {
            let entry = self.get(i);
            if entry.takes(params, word) {
                return Some(Hit {
                    unit,
                    entry: i as u8,
                    register_read: read_flags(entry.op.reads(), params),
                    writeback: write_flags(entry.op.writes()),
                });
            }
        }
        None
    }
}

impl Entry {
    /// Whether the entry matches the word, and the parameters allow it.
    fn takes(&self, params: &Params, word: u32) -> bool
        ensures takes { result ≡ takes params.now word self.now }
        ensures readable { IsTrue result
            → IsTrue (can_read params.now word (operation_line self.now.op).reads) }
    {
        word & self.mask == self.matched
            && is_readable(self.op.reads(), params, word)
            && is_writable(self.op.writes(), params, word)
    }
}

fn is_readable(reads: Reads, params: &Params, word: u32) -> bool
    ensures { result ≡ can_read params.now word reads }
{
    match reads {
        Reads::Nothing => true,
        Reads::A => has_lane(params, 0),
        Reads::AB => has_lane(params, 0) && has_lane(params, 1),
        Reads::ABC => has_lane(params, 0) && has_lane(params, 1) && has_lane(params, 2),
        Reads::PairA => has_lane(params, 0) && has_pair(params, 0, word),
        Reads::PairAB => {
            has_lane(params, 0)
                && has_lane(params, 1)
                && has_pair(params, 0, word)
                && has_pair(params, 1, word)
        }
    }
}

fn is_writable(writes: Writes, params: &Params, word: u32) -> bool
    ensures { result ≡ can_write params.now word writes }
{
    match writes {
        Writes::Nothing | Writes::One => true,
        Writes::Pair => params.dual_write && rd_field(word) % 2 == 0,
    }
}

fn has_lane(params: &Params, lane: u8) -> bool
    ensures { result ≡ nat_lt lane params.now.num_rs }
{
    lane < params.num_rs
}

fn has_pair(params: &Params, lane: u8, word: u32) -> bool
    requires { lane < 3 }
    ensures { result ≡ (nat_lt lane params.now.dual_read && is_even (source_field word lane)) }
{
    lane < params.dual_read && rs_field(word, lane) % 2 == 0
}

fn read_flags(reads: Reads, params: &Params) -> ReadFlags
    requires params { IsInRange params.now }
    requires readable { (word : ℕ) × IsTrue (can_read params.now word reads) }
    ensures { result.0 ≡ read_flags_of params.now reads }
{
    let bits = match reads {
        Reads::Nothing => 0,
        Reads::A => low_flag(params, 0),
        Reads::AB => low_flag(params, 0) | low_flag(params, 1),
        Reads::ABC => low_flag(params, 0) | low_flag(params, 1) | low_flag(params, 2),
        Reads::PairA => low_flag(params, 0) | high_flag(params, 0),
        Reads::PairAB => {
            low_flag(params, 0) | low_flag(params, 1) | high_flag(params, 0) | high_flag(params, 1)
        }
    };
    ReadFlags::from_bits_retain(bits)
}

/// The flag of the low half of a lane.
fn low_flag(params: &Params, lane: u8) -> u8
    requires params { IsInRange params.now }
    requires lane { lane < params.now.num_rs }
    ensures { result ≡ flag_of (Some (even_bit params.now lane)) }
{
    1 << ReadFlags::even_bit(params, lane)
}

/// The flag of the high half of a lane, and 0 where the lane has none.
fn high_flag(params: &Params, lane: u8) -> u8
    requires params { IsInRange params.now }
    requires lane { lane < params.now.num_rs }
    ensures { result ≡ flag_of (odd_bit params.now lane) }
{
    if let Some(bit) = ReadFlags::odd_bit(params, lane) {
        1 << bit
    } else {
        0
    }
}

fn write_flags(writes: Writes) -> WriteFlags
    ensures { result.0 ≡ write_flags_of writes }
{
    WriteFlags::from_bits_retain(match writes {
        Writes::Nothing => 0,
        Writes::One => WriteFlags::RD.bits(),
        Writes::Pair => WriteFlags::RD.bits() | WriteFlags::NEXT.bits(),
    })
}
