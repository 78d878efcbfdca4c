//! What the register interface carries in a cycle (CV-X-IF 1.0.0, "Register interface").
ghost use Rattle.std.specs.Prelude.{◌≡◌, ◌<◌, ◌≤◌, ◌+◌, ◌^◌, take, if◌then◌else◌, true, IfSome, option_copied};
ghost use Rattle.xif_base.specs.Params.{IsInRange};
ghost use Rattle.coproc_config.specs.Accept.{flag_of};
ghost use Rattle.coproc_config.specs.Bits.{lane as lane_with};
ghost use Rattle.inorder_machine.specs.Units.{bit_of};
ghost use Rattle.cycle_spec.specs.Choices as spec;
ghost use Rattle.cycle_spec.specs.Flight as flight;
ghost use Rattle.spec_core.specs.Drives.{FitsPresented};

use crate::execution::value_or_zero;
use crate::state::CoreState;
use cycle_spec::{Entry, Operand, Presented, turn_of};
use flight_table::Wanted;
use inorder_machine::{Half, half_register};
use rv32_table::rs_field;
use xif_base::{Params, ReadFlags};

impl CoreState {
    /// What the register interface carries, with this word on the issue interface, and for one of
    /// the `count` oldest entries.
    pub(crate) fn present_in(&self, offer: Option<&Entry>, count: u8) -> Option<Presented>
        ensures value { result ≡ spec.present_in self.now (option_copied offer.entry)
            (take count self.now.flight) }
        ensures fits { IfSome result (FitsPresented self.now.params) }
    {
        let mut present = None;
        self.put_present(offer, count, &mut present);
        present
    }

    /// The same, in its place, so that it is not copied.
    pub(crate) fn put_present(
        &self,
        offer: Option<&Entry>,
        count: u8,
        present: &mut Option<Presented>,
    )
        ensures value { present.new ≡ spec.present_in self.now (option_copied offer.entry)
            (take count self.now.flight) }
        ensures fits { IfSome present.new (FitsPresented self.now.params) }
    {
        match self.presented_entry(offer, count) {
            None => *present = None,
            Some(entry) => *present = Some(self.presentation_of(entry)),
        }
    }

    /// With X_ISSUE_REGISTER_SPLIT the oldest use that waits for its registers, and else the word
    /// on the issue interface.
    fn presented_entry<'a>(&'a self, offer: Option<&'a Entry>, count: u8) -> Option<&'a Entry>
        ensures { option_copied result ≡ spec.presented_entry self.now.params.split
            (option_copied offer.entry) (take count self.now.flight) }
    {
        if self.params.split {
            self.table.first_among(count, Wanted::Waiting)
        } else {
            offer
        }
    }

    /// The lanes and their flags for an entry.
    fn presentation_of(&self, entry: &Entry) -> Presented
        ensures value { result ≡ spec.presentation_of self.now entry.now }
        ensures fits { FitsPresented self.now.params result }
    {
        let params = &self.params;
        let late = self.is_late(entry);
        let low0 = self.half_of(entry, late, 0, Half::Low);
        let high0 = self.half_of(entry, late, 0, Half::High);
        let low1 = self.half_of(entry, late, 1, Half::Low);
        let high1 = self.half_of(entry, late, 1, Half::High);
        let low2 = self.half_of(entry, late, 2, Half::Low);
        let high2 = self.half_of(entry, late, 2, Half::High);
        Presented {
            entry: *entry,
            rs_valid: half_flag(params, 0, Half::Low, low0)
                | half_flag(params, 0, Half::High, high0)
                | half_flag(params, 1, Half::Low, low1)
                | half_flag(params, 1, Half::High, high1)
                | half_flag(params, 2, Half::Low, low2)
                | half_flag(params, 2, Half::High, high2),
            lanes: [
                presented_lane(params, 0, low0, high0),
                presented_lane(params, 1, low1, high1),
                presented_lane(params, 2, low2, high2),
            ],
        }
    }

    /// The delay of the transaction holds back the lanes but for the first.
    fn is_late(&self, entry: &Entry) -> bool
        ensures { result ≡ spec.is_late self.now entry.now }
    {
        let turn = turn_of(self.register_turns, entry.seq);
        !(u64::from(self.script.operand(turn.number)) <= turn.age)
    }

    /// What a half of a lane presents.
    fn half_of(&self, entry: &Entry, late: bool, lane: u8, half: Half) -> Operand
        requires late { late ≡ spec.is_late self.now entry.now }
        requires lane { lane < 3 }
        ensures value { result ≡ spec.half_of self.now entry.now lane half }
        ensures low { flight.is_here result ≡ true → lane < self.now.params.num_rs }
        ensures high { half ≡ Half.High → flight.is_here result ≡ true
            → lane < self.now.params.dual_read }
    {
        if has_half(&self.params, entry.word, lane, half) && !(late && lane != 0) {
            self.half_value(entry, lane, half)
        } else {
            Operand::NotYet
        }
    }

    /// The register of a half; behind x0 it is 0.
    fn half_value(&self, entry: &Entry, lane: u8, half: Half) -> Operand
        requires { lane < 3 }
        ensures { result ≡ spec.half_value self.now entry.now lane half }
    {
        match half_register(entry.word, lane, half) {
            None => Operand::Here(0),
            Some(register) => self.operand(entry.seq, register),
        }
    }
}

/// Whether a half of a lane carries a register of a word: the low half that of the lane's field,
/// and the high half, below X_DUALREAD, the register behind an even one.
fn has_half(params: &Params, word: u32, lane: u8, half: Half) -> bool
    requires params { IsInRange params.now }
    requires lane { lane < 3 }
    ensures value { result ≡ spec.has_half params.now word lane half }
    ensures low { result ≡ true → lane < params.now.num_rs }
    ensures high { half ≡ Half.High → result ≡ true → lane < params.now.dual_read }
{
    match half {
        Half::Low => lane < params.num_rs,
        Half::High => lane < params.dual_read && rs_field(word, lane) % 2 == 0,
    }
}

/// The flag of a half is set where its register is here.
fn half_flag(params: &Params, lane: u8, half: Half, value: Operand) -> u8
    requires params { IsInRange params.now }
    requires lane { flight.is_here value ≡ true → lane < params.now.num_rs }
    ensures flag { result ≡ (if flight.is_here value
        then flag_of (bit_of params.now lane half)
        else 0) }
    ensures fits { result < 2 ^ (params.now.num_rs + params.now.dual_read) }
{
    match value {
        Operand::Here(_) => flag(params, lane, half),
        Operand::NotYet => 0,
    }
}

/// The flag of a half, and 0 where the lane has no such half.
fn flag(params: &Params, lane: u8, half: Half) -> u8
    requires params { IsInRange params.now }
    requires lane { lane < params.now.num_rs }
    ensures flag { result ≡ flag_of (bit_of params.now lane half) }
    ensures fits { result < 2 ^ (params.now.num_rs + params.now.dual_read) }
{
    let low = ReadFlags::even_bit(params, lane);
    match half {
        Half::Low => flag_at(low),
        Half::High => if lane < params.dual_read {
            flag_at(low + 1)
        } else {
            0
        },
    }
}

fn flag_at(bit: u8) -> u8
    requires { bit < 8 }
    ensures { result ≡ 2 ^ bit }
{
    1 << bit
}

/// A lane with these halves; one that isn't here is 0. A lane that carries pairs has 64 bits.
fn presented_lane(params: &Params, lane: u8, low: Operand, high: Operand) -> u64
    requires params { IsInRange params.now }
    requires low { flight.is_here low ≡ true → lane < params.now.num_rs }
    requires high { flight.is_here high ≡ true → lane < params.now.dual_read }
    ensures value { result ≡ lane_with (flight.value_or_zero low) (flight.value_or_zero high) }
    ensures fits { result < 2 ^ params.now.rfr_width }
    ensures none { params.now.num_rs ≤ lane → result ≡ 0 }
{
    lane_of(value_or_zero(low), value_or_zero(high))
}

fn lane_of(low: u32, high: u32) -> u64
    ensures value { result ≡ lane_with low high }
    ensures pair { result < 2 ^ 64 }
    ensures single { high ≡ 0 → result < 2 ^ 32 }
{
    u64::from(low) + (u64::from(high) << 32)
}
