//! Which bits of a sample have to be known, and the bus of a sample in which they are.
ghost use Rattle.std.specs.Prelude.{◌≡◌, ◌==◌, ◌&&◌, ◌<◌, ◌≤◌, not, IfOk};
ghost use Rattle.xif_base.specs.Params.{IsInRange};
ghost use Rattle.xif_signals.specs.Channels.{first_failing_channel};
ghost use Rattle.xif_signals.specs.Bus.{cpu_out_of, cop_out_of, bus_of, FitsWidths};
ghost use Rattle.xif_signals.specs.Signal.{width_of};
ghost use Rattle.xif_signals.specs.Quad.{value_of};
ghost use Rattle.xif_signals.specs.Known as rules;

use crate::bus::{Bus, CopOut, CpuIn, CpuOut};
use crate::rule::{Channel, Rule, Unknown};
use crate::sample::Sample;
use crate::signal::Signal;
use xif_base::{Params, ReadFlags};

impl Sample {
    /// The bus, where all bits that count are known, with 0 for the unknown bits that don't. Else
    /// the first of the rules K1 and K2 that fails, and the first channel at which it does. No bit
    /// at or above the width of its signal counts (CV-X-IF 1.0.0, "Parameters").
    pub fn known(&self, params: &Params) -> Result<Bus, Unknown>
        requires { IsInRange params.now }
        ensures known { result ≡ rules.known_of self.now params.now }
        ensures fits { IfOk result (FitsWidths params.now) }
    {
        // Nearly always no bit at all is unknown, and then both rules hold.
        if self.are_all_known() {
            return Ok(self.bus(params));
        }
        if let Some(channel) = self.first_failing_k1(params) {
            return Err(Unknown {
                rule: Rule::K1,
                channel,
            });
        }
        if let Some(channel) = self.first_failing_k2(params) {
            return Err(Unknown {
                rule: Rule::K2,
                channel,
            });
        }
        Ok(self.bus(params))
    }

    fn first_failing_k1(&self, params: &Params) -> Option<Channel>
        requires { IsInRange params.now }
        ensures { result ≡ first_failing_channel (rules.holds_k1 self.now params.now) }
    {
        Channel::first_failing(|channel| self.holds_k1(channel, params))
    }

    fn first_failing_k2(&self, params: &Params) -> Option<Channel>
        requires { IsInRange params.now }
        ensures { result ≡ first_failing_channel (rules.holds_k2 self.now params.now) }
    {
        Channel::first_failing(|channel| self.holds_k2(channel, params))
    }

    /// Whether K1 holds at a channel.
    fn holds_k1(&self, channel: Channel, params: &Params) -> bool
        requires { IsInRange params.now }
        ensures { result ≡ rules.holds_k1 self.now params.now channel }
    {
        match channel {
            Channel::Issue => self.is_handshake_known(
                Signal::IssueValid,
                Signal::IssueReady,
                params,
            ),
            Channel::Register => self.is_handshake_known(
                Signal::RegisterValid,
                Signal::RegisterReady,
                params,
            ),
            Channel::Commit => self.is_known(Signal::CommitValid, params),
            Channel::Result => self.is_handshake_known(
                Signal::ResultValid,
                Signal::ResultReady,
                params,
            ),
        }
    }

    /// Whether K2 holds at a channel.
    fn holds_k2(&self, channel: Channel, params: &Params) -> bool
        requires { IsInRange params.now }
        ensures { result ≡ rules.holds_k2 self.now params.now channel }
    {
        match channel {
            Channel::Issue => self.is_issue_known(params),
            Channel::Register => self.is_register_known(params),
            Channel::Commit => self.is_commit_known(params),
            Channel::Result => self.is_result_known(params),
        }
    }

    /// Valid, and ready where valid is 1.
    fn is_handshake_known(&self, valid: Signal, ready: Signal, params: &Params) -> bool
        requires { IsInRange params.now }
        ensures { result ≡ rules.is_handshake_known self.now params.now valid ready }
    {
        self.is_known(valid, params)
            && (!self.is_one(valid, params) || self.is_known(ready, params))
    }

    /// The request where issue_valid is 1, the response at the handshake, issue_register_read where
    /// it accepts.
    fn is_issue_known(&self, params: &Params) -> bool
        requires { IsInRange params.now }
        ensures { result ≡ rules.is_issue_known self.now params.now }
    {
        if !self.is_one(Signal::IssueValid, params) {
            return true;
        }
        // Here and below `&` tests all of them, with no branch: nearly always all are known.
        if !(self.is_known(Signal::IssueHartid, params)
            & self.is_known(Signal::IssueId, params)
            & self.is_known(Signal::IssueInstr, params))
        {
            return false;
        }
        if !self.is_one(Signal::IssueReady, params) {
            return true;
        }
        if !(self.is_known(Signal::IssueAccept, params)
            & self.is_known(Signal::IssueWriteback, params))
        {
            return false;
        }
        !self.is_one(Signal::IssueAccept, params)
            || self.is_known(Signal::IssueRegisterRead, params)
    }

    /// The key and the flags where register_valid is 1, and the halves whose flag is 1.
    fn is_register_known(&self, params: &Params) -> bool
        requires { IsInRange params.now }
        ensures { result ≡ rules.is_register_known self.now params.now }
    {
        if !self.is_one(Signal::RegisterValid, params) {
            return true;
        }
        if !(self.is_known(Signal::RegisterHartid, params)
            & self.is_known(Signal::RegisterId, params)
            & self.is_known(Signal::RegisterRsValid, params)
            & self.is_lane_known(0, Signal::RegisterRs0, params)
            & self.is_lane_known(1, Signal::RegisterRs1, params))
        {
            return false;
        }
        params.num_rs != 3 || self.is_lane_known(2, Signal::RegisterRs2, params)
    }

    /// The halves of a lane of register_rs whose bit of register_rs_valid is 1.
    fn is_lane_known(&self, lane: u8, signal: Signal, params: &Params) -> bool
        requires lane { lane < params.now.num_rs }
        requires params { IsInRange params.now }
        ensures { result ≡ rules.is_lane_known self.now params.now lane signal }
    {
        let flags = self.value(Signal::RegisterRsValid, params);
        let even = has_flag(flags, ReadFlags::even_bit(params, lane));
        let odd = ReadFlags::odd_bit(params, lane).is_some_and(|bit| has_flag(flags, bit));
        self.are_halves_known(signal, even, odd, params)
    }

    /// All of the request where commit_valid is 1.
    fn is_commit_known(&self, params: &Params) -> bool
        requires { IsInRange params.now }
        ensures { result ≡ rules.is_commit_known self.now params.now }
    {
        if !self.is_one(Signal::CommitValid, params) {
            return true;
        }
        self.is_known(Signal::CommitHartid, params)
            & self.is_known(Signal::CommitId, params)
            & self.is_known(Signal::CommitKill, params)
    }

    /// The key and the flags where result_valid is 1, and what a flag says is written.
    fn is_result_known(&self, params: &Params) -> bool
        requires { IsInRange params.now }
        ensures { result ≡ rules.is_result_known self.now params.now }
    {
        if !self.is_one(Signal::ResultValid, params) {
            return true;
        }
        if !(self.is_known(Signal::ResultHartid, params)
            & self.is_known(Signal::ResultId, params)
            & self.is_known(Signal::ResultWe, params))
        {
            return false;
        }
        let flags = self.value(Signal::ResultWe, params);
        let even = has_flag(flags, 0);
        let odd = has_flag(flags, 1);
        is_written_known(
            flags,
            self.is_known(Signal::ResultRd, params),
            self.are_halves_known(Signal::ResultData, even, odd, params),
        )
    }

    /// Whether each half of a signal whose flag is 1 is known.
    fn are_halves_known(&self, signal: Signal, even: bool, odd: bool, params: &Params) -> bool
        requires { IsInRange params.now }
        ensures { result ≡ rules.are_halves_known self.now params.now signal even odd }
    {
        let unknown = self.unknown(signal, params);
        (!even || unknown % (1 << 32) == 0) && (!odd || unknown / (1 << 32) == 0)
    }

    /// The bus by the bits below the widths, an unknown bit as 0.
    fn bus(&self, params: &Params) -> Bus
        requires { IsInRange params.now }
        ensures { result ≡ bus_of self.now params.now }
    {
        let input = CpuIn {
            result_ready: self.is_one(Signal::ResultReady, params),
        };
        Bus::join(&self.cpu_out(params), &self.cop_out(params), &input)
    }

    fn cpu_out(&self, params: &Params) -> CpuOut
        requires { IsInRange params.now }
        ensures { result ≡ cpu_out_of self.now params.now }
    {
        CpuOut {
            issue_valid: self.is_one(Signal::IssueValid, params),
            issue_hartid: self.byte(Signal::IssueHartid, params),
            issue_id: self.id(Signal::IssueId, params),
            issue_instr: self.value(Signal::IssueInstr, params) as u32,
            register_valid: self.is_one(Signal::RegisterValid, params),
            register_hartid: self.byte(Signal::RegisterHartid, params),
            register_id: self.id(Signal::RegisterId, params),
            register_rs0: self.value(Signal::RegisterRs0, params),
            register_rs1: self.value(Signal::RegisterRs1, params),
            register_rs2: self.value(Signal::RegisterRs2, params),
            register_rs_valid: self.byte(Signal::RegisterRsValid, params),
            commit_valid: self.is_one(Signal::CommitValid, params),
            commit_hartid: self.byte(Signal::CommitHartid, params),
            commit_id: self.id(Signal::CommitId, params),
            commit_kill: self.is_one(Signal::CommitKill, params),
        }
    }

    fn cop_out(&self, params: &Params) -> CopOut
        requires { IsInRange params.now }
        ensures { result ≡ cop_out_of self.now params.now }
    {
        CopOut {
            issue_ready: self.is_one(Signal::IssueReady, params),
            issue_accept: self.is_one(Signal::IssueAccept, params),
            issue_writeback: self.byte(Signal::IssueWriteback, params),
            issue_register_read: self.byte(Signal::IssueRegisterRead, params),
            register_ready: self.is_one(Signal::RegisterReady, params),
            result_valid: self.is_one(Signal::ResultValid, params),
            result_hartid: self.byte(Signal::ResultHartid, params),
            result_id: self.id(Signal::ResultId, params),
            result_data: self.value(Signal::ResultData, params),
            result_rd: self.byte(Signal::ResultRd, params),
            result_we: self.byte(Signal::ResultWe, params),
        }
    }

    /// The value of a signal of at most 8 bits.
    fn byte(&self, signal: Signal, params: &Params) -> u8
        requires width { width_of signal params.now ≤ 8 }
        requires params { IsInRange params.now }
        ensures { result ≡ value_of self.now params.now signal }
    {
        self.value(signal, params) as u8
    }

    /// The value of a signal that is an id.
    fn id(&self, signal: Signal, params: &Params) -> u16
        requires width { width_of signal params.now ≤ 16 }
        requires params { IsInRange params.now }
        ensures { result ≡ value_of self.now params.now signal }
    {
        self.value(signal, params) as u16
    }
}

/// Whether register and halves of a result are known, where a flag says that it is written.
fn is_written_known(flags: u64, rd: bool, value: bool) -> bool
    ensures { result ≡ rules.when (not (flags == 0)) (rd && value) }
{
    flags == 0 || rd && value
}

fn has_flag(flags: u64, bit: u8) -> bool
    requires { bit < 64 }
    ensures { result ≡ rules.has_flag flags bit }
{
    (flags >> bit) & 1 == 1
}
