//! The signals, and the line of the table for each.
ghost use Rattle.std.specs.Prelude.{◌≡◌, [], ◌∷◌};
ghost use Rattle.xif_base.specs.Params.{IsInRange};
ghost use Rattle.xif_signals.specs.Signal.{signals, signal_number, code_of, name_of, width_of};

use std::fmt;
use xif_base::Params;

/// A signal of the interface, or its clock or reset, in the order of the table (CV-X-IF 1.0.0,
/// "Issue interface", "Register interface", "Commit interface", "Result interface").
#[derive(Clone, Copy, PartialEq, Eq)]
pub enum Signal {
    Clk,
    RstN,
    IssueValid,
    IssueReady,
    IssueHartid,
    IssueId,
    IssueInstr,
    IssueAccept,
    IssueWriteback,
    IssueRegisterRead,
    RegisterValid,
    RegisterReady,
    RegisterHartid,
    RegisterId,
    RegisterRs0,
    RegisterRs1,
    RegisterRs2,
    RegisterRsValid,
    CommitValid,
    CommitHartid,
    CommitId,
    CommitKill,
    ResultValid,
    ResultReady,
    ResultHartid,
    ResultId,
    ResultData,
    ResultRd,
    ResultWe,
}

impl Signal {
    /// All signals, in the order of the table.
    pub fn all() -> [Signal; 29]
        ensures { result ≡ signals }
    {
        [
            Signal::Clk,
            Signal::RstN,
            Signal::IssueValid,
            Signal::IssueReady,
            Signal::IssueHartid,
            Signal::IssueId,
            Signal::IssueInstr,
            Signal::IssueAccept,
            Signal::IssueWriteback,
            Signal::IssueRegisterRead,
            Signal::RegisterValid,
            Signal::RegisterReady,
            Signal::RegisterHartid,
            Signal::RegisterId,
            Signal::RegisterRs0,
            Signal::RegisterRs1,
            Signal::RegisterRs2,
            Signal::RegisterRsValid,
            Signal::CommitValid,
            Signal::CommitHartid,
            Signal::CommitId,
            Signal::CommitKill,
            Signal::ResultValid,
            Signal::ResultReady,
            Signal::ResultHartid,
            Signal::ResultId,
            Signal::ResultData,
            Signal::ResultRd,
            Signal::ResultWe,
        ]
    }

    /// Its place in the table, from 0 to 28.
    pub fn number(&self) -> u8
        ensures { result ≡ signal_number self.now }
    {
        *self as u8
    }

    /// The identifier code of its variable in a waveform (IEEE 1364-2005, 18.2.1): one ASCII
    /// character, from `!` on.
    pub fn code(&self) -> u8
        ensures { result ∷ [] ≡ code_of self.now }
    {
        b'!' + self.number()
    }

    /// Its name in lower case, as `issue_valid`.
    pub fn name(&self) -> &'static str
        ensures { result.now ≡ name_of self.now }
    {
        match self {
            Signal::Clk => "clk",
            Signal::RstN => "rst_n",
            Signal::IssueValid => "issue_valid",
            Signal::IssueReady => "issue_ready",
            Signal::IssueHartid => "issue_hartid",
            Signal::IssueId => "issue_id",
            Signal::IssueInstr => "issue_instr",
            Signal::IssueAccept => "issue_accept",
            Signal::IssueWriteback => "issue_writeback",
            Signal::IssueRegisterRead => "issue_register_read",
            Signal::RegisterValid => "register_valid",
            Signal::RegisterReady => "register_ready",
            Signal::RegisterHartid => "register_hartid",
            Signal::RegisterId => "register_id",
            Signal::RegisterRs0 => "register_rs0",
            Signal::RegisterRs1 => "register_rs1",
            Signal::RegisterRs2 => "register_rs2",
            Signal::RegisterRsValid => "register_rs_valid",
            Signal::CommitValid => "commit_valid",
            Signal::CommitHartid => "commit_hartid",
            Signal::CommitId => "commit_id",
            Signal::CommitKill => "commit_kill",
            Signal::ResultValid => "result_valid",
            Signal::ResultReady => "result_ready",
            Signal::ResultHartid => "result_hartid",
            Signal::ResultId => "result_id",
            Signal::ResultData => "result_data",
            Signal::ResultRd => "result_rd",
            Signal::ResultWe => "result_we",
        }
    }

    /// Its width in bits, 0 where the parameters leave it out (CV-X-IF 1.0.0, "Parameters").
    pub fn width(&self, params: &Params) -> u8
        requires { IsInRange params.now }
        ensures { result ≡ width_of self.now params.now }
    {
        match self {
            Signal::IssueHartid
            | Signal::RegisterHartid
            | Signal::CommitHartid
            | Signal::ResultHartid => params.hartid_width,
            Signal::IssueId | Signal::RegisterId | Signal::CommitId | Signal::ResultId =>
                params.id_width,
            Signal::IssueInstr => 32,
            Signal::IssueWriteback | Signal::ResultWe => 1 + u8::from(params.dual_write),
            Signal::IssueRegisterRead | Signal::RegisterRsValid => params.num_rs + params.dual_read,
            Signal::RegisterRs0 | Signal::RegisterRs1 => params.rfr_width,
            Signal::RegisterRs2 => if params.num_rs == 3 {
                params.rfr_width
            } else {
                0
            },
            Signal::ResultData => params.rfw_width,
            Signal::ResultRd => 5,
            _ => 1,
        }
    }
}

// It prints as its name.
impl fmt::Debug for Signal {
    ghost use Rattle.std.specs.Prelude.{Some};
    ghost use Rattle.xif_signals.specs.Signal.{name_of};

    ghost debug_output = { λ signal. Some (name_of signal) };

    fn fmt<W: fmt::Write>(&self, f: &mut fmt::Formatter<W>) -> fmt::Result {
        f.write_str(self.name())
    }
}
