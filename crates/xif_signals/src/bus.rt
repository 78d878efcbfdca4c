//! The values of all signals in a cycle, and who drives which.
ghost use Rattle.std.specs.Prelude.{◌≡◌};
ghost use Rattle.xif_signals.specs.Bus.{join_of, values_of, sample_of, FitsWidths};
ghost use Rattle.xif_base.specs.declared.params.Params.{Params};
ghost use Rattle.xif_base.specs.Params.{IsInRange};
ghost use Rattle.xif_signals.specs.Channels.{valid_of, key_of};
ghost use Rattle.xif_signals.specs.Known.{known_of};

use crate::rule::Channel;
use crate::sample::Sample;
use xif_base::Key;

/// What the core drives in a cycle, but for `result_ready` (CV-X-IF 1.0.0, "Issue interface",
/// "Register interface", "Commit interface"). A field has the low bits of the signal of its name.
#[derive(Clone, Copy, Debug, PartialEq, Eq)]
pub struct CpuOut {
    pub issue_valid: bool,
    pub issue_hartid: u8,
    pub issue_id: u16,
    pub issue_instr: u32,
    pub register_valid: bool,
    pub register_hartid: u8,
    pub register_id: u16,
    pub register_rs0: u64,
    pub register_rs1: u64,
    pub register_rs2: u64,
    pub register_rs_valid: u8,
    pub commit_valid: bool,
    pub commit_hartid: u8,
    pub commit_id: u16,
    pub commit_kill: bool,
}

/// What the coprocessor drives in a cycle (CV-X-IF 1.0.0, "Issue interface", "Register interface",
/// "Result interface"). A field has the low bits of the signal of its name.
#[derive(Clone, Copy, Debug, PartialEq, Eq)]
pub struct CopOut {
    pub issue_ready: bool,
    pub issue_accept: bool,
    pub issue_writeback: u8,
    pub issue_register_read: u8,
    pub register_ready: bool,
    pub result_valid: bool,
    pub result_hartid: u8,
    pub result_id: u16,
    pub result_data: u64,
    pub result_rd: u8,
    pub result_we: u8,
}

/// What the core drives in a cycle once it has seen what the coprocessor drives (CV-X-IF 1.0.0,
/// "Result interface").
#[derive(Clone, Copy, Debug, PartialEq, Eq)]
pub struct CpuIn {
    pub result_ready: bool,
}

/// The values of the signals in a cycle, but for clock and reset: those of `CpuOut`, `CopOut` and
/// `CpuIn`. A field is 0 above the width of its signal.
#[derive(Clone, Copy, Debug, PartialEq, Eq)]
pub struct Bus {
    pub issue_valid: bool,
    pub issue_ready: bool,
    pub issue_hartid: u8,
    pub issue_id: u16,
    pub issue_instr: u32,
    pub issue_accept: bool,
    pub issue_writeback: u8,
    pub issue_register_read: u8,
    pub register_valid: bool,
    pub register_ready: bool,
    pub register_hartid: u8,
    pub register_id: u16,
    pub register_rs0: u64,
    pub register_rs1: u64,
    pub register_rs2: u64,
    pub register_rs_valid: u8,
    pub commit_valid: bool,
    pub commit_hartid: u8,
    pub commit_id: u16,
    pub commit_kill: bool,
    pub result_valid: bool,
    pub result_ready: bool,
    pub result_hartid: u8,
    pub result_id: u16,
    pub result_data: u64,
    pub result_rd: u8,
    pub result_we: u8,
}

impl Bus {
    /// The bus of a cycle: each field is that of the side that drives it.
    pub fn join(cpu: &CpuOut, cop: &CopOut, input: &CpuIn) -> Bus
        ensures { result ≡ join_of cpu.now cop.now input.now }
    {
        Bus {
            issue_valid: cpu.issue_valid,
            issue_ready: cop.issue_ready,
            issue_hartid: cpu.issue_hartid,
            issue_id: cpu.issue_id,
            issue_instr: cpu.issue_instr,
            issue_accept: cop.issue_accept,
            issue_writeback: cop.issue_writeback,
            issue_register_read: cop.issue_register_read,
            register_valid: cpu.register_valid,
            register_ready: cop.register_ready,
            register_hartid: cpu.register_hartid,
            register_id: cpu.register_id,
            register_rs0: cpu.register_rs0,
            register_rs1: cpu.register_rs1,
            register_rs2: cpu.register_rs2,
            register_rs_valid: cpu.register_rs_valid,
            commit_valid: cpu.commit_valid,
            commit_hartid: cpu.commit_hartid,
            commit_id: cpu.commit_id,
            commit_kill: cpu.commit_kill,
            result_valid: cop.result_valid,
            result_ready: input.result_ready,
            result_hartid: cop.result_hartid,
            result_id: cop.result_id,
            result_data: cop.result_data,
            result_rd: cop.result_rd,
            result_we: cop.result_we,
        }
    }

    /// Whether a channel's valid is 1.
    pub fn is_valid(&self, channel: Channel) -> bool
        ensures { result ≡ valid_of self.now channel }
    {
        match channel {
            Channel::Issue => self.issue_valid,
            Channel::Register => self.register_valid,
            Channel::Commit => self.commit_valid,
            Channel::Result => self.result_valid,
        }
    }

    /// The hartid and the id that a channel carries, which mean something where its valid is 1.
    pub fn key(&self, channel: Channel) -> Key
        ensures { result ≡ key_of self.now channel }
    {
        match channel {
            Channel::Issue => Key {
                hart: self.issue_hartid,
                id: self.issue_id,
            },
            Channel::Register => Key {
                hart: self.register_hartid,
                id: self.register_id,
            },
            Channel::Commit => Key {
                hart: self.commit_hartid,
                id: self.commit_id,
            },
            Channel::Result => Key {
                hart: self.result_hartid,
                id: self.result_id,
            },
        }
    }

    /// The sample of a cycle out of reset in which the signals have these values.
    pub fn sample(&self) -> Sample
        ensures sample { result ≡ sample_of self.now }
        // `Sample::known` returns the bus again.
        ensures reads_back { (params : Params) → IsInRange params → FitsWidths params self.now
            → known_of result params ≡ Ok self.now }
    {
        Sample::of(self.values())
    }

    /// The values of the signals but for the clock, in the order of the table, with rst_n 1.
    fn values(&self) -> [u64; 28]
        ensures { result ≡ values_of self.now }
    {
        [
            1,
            self.issue_valid as u64,
            self.issue_ready as u64,
            self.issue_hartid as u64,
            self.issue_id as u64,
            self.issue_instr as u64,
            self.issue_accept as u64,
            self.issue_writeback as u64,
            self.issue_register_read as u64,
            self.register_valid as u64,
            self.register_ready as u64,
            self.register_hartid as u64,
            self.register_id as u64,
            self.register_rs0,
            self.register_rs1,
            self.register_rs2,
            self.register_rs_valid as u64,
            self.commit_valid as u64,
            self.commit_hartid as u64,
            self.commit_id as u64,
            self.commit_kill as u64,
            self.result_valid as u64,
            self.result_ready as u64,
            self.result_hartid as u64,
            self.result_id as u64,
            self.result_data,
            self.result_rd as u64,
            self.result_we as u64,
        ]
    }
}
