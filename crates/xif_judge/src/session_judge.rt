//! The judge of one session, which takes its buses in order.
ghost use Rattle.std.specs.Prelude.{◌≡◌, ◌<◌, ◌≤◌, ◌+◌, ◌-◌, ◌^◌, IfOk, OnOk};
ghost use Rattle.xif_base.specs.Params.{IsInRange};
ghost use Rattle.xif_signals.specs.Bus.{FitsWidths};
ghost use Rattle.xif_session.specs.Facts.{Past, no_past, past_after};
ghost use Rattle.xif_session.specs.Tests.{answer_of, bus_fault};
ghost use Rattle.xif_judge.specs.Judging.{HasFollowed, CanJudge};

use crate::hart_rule::judge_harts;
use commit_channel::CommitSide;
use issue_channel::IssueSide;
use result_channel::ResultSide;
use std::alloc::Global;
use std::marker::Model;
use xif_base::{NoMemory, Params};
use xif_session::Fault;
use xif_signals::Bus;
use xif_uses::UseTable;

/// Takes the buses of a session in order, and judges the rules of each.
#[derive(Debug, Drop)]
pub struct SessionJudge {
    uses: UseTable,
    issue: IssueSide,
    commit: CommitSide,
    result: ResultSide,
    /// The number of cycles of the session so far.
    cycles: u64,
}

impl Model for SessionJudge {
    ghost use Rattle.xif_judge.specs.Judging.{SessionJudging};

    ghost Value = { SessionJudging };

    ghost view = { λ s.
        record { uses = s.uses; issue = s.issue; last = s.result; cycles = s.cycles } };
}

impl SessionJudge {
    /// A judge before the first cycle of a session. It takes all memory that it ever takes.
    pub fn new(alloc: Global, params: &Params) -> Result<SessionJudge, NoMemory>
        requires { IsInRange params.now }
        ensures followed { IfOk result (λ session. HasFollowed session params.now no_past) }
        ensures ready { IfOk result (λ session. CanJudge session params.now) }
    {
        Ok(SessionJudge {
            uses: UseTable::new(alloc, params)?,
            issue: IssueSide::new(params),
            commit: CommitSide::new(),
            result: ResultSide::new(),
            cycles: 0,
        })
    }

    /// Starts a new session.
    pub fn reset(&mut self)
        requires { self.old.issue.params ≡ self.old.uses.params }
        ensures followed { HasFollowed self.new self.old.uses.params no_past }
        ensures ready { CanJudge self.new self.old.uses.params }
    {
        self.uses.clear();
        self.issue.reset();
        self.commit.reset();
        self.result.reset();
        self.cycles = 0;
    }

    /// Judges the next cycle of the session, in the order of `Rule`. After an error the judge is of
    /// no use.
    pub fn step(&mut self, params: &Params, bus: &Bus) -> Result<(), Fault>
        requires widths { FitsWidths params.now bus.now }
        requires ready { CanJudge self.old params.now }
        requires room { self.old.cycles < 2 ^ 64 - 1 }
        ensures fault { (p : Past) → HasFollowed self.old params.now p
            → result ≡ answer_of (bus_fault params.now p bus.now) }
        ensures followed { (p : Past) → HasFollowed self.old params.now p
            → OnOk result (HasFollowed self.new params.now (past_after p bus.now)) }
        ensures ready { OnOk result (CanJudge self.new params.now) }
        ensures cycles { self.new.cycles ≤ self.old.cycles + 1 }
    {
        judge_harts(params, bus)?;
        self.issue.step(&mut self.uses, self.cycles, bus)?;
        self.commit.step(&mut self.uses, &mut self.issue, bus)?;
        self.result.step(&mut self.uses, bus)?;
        self.cycles += 1;
        Ok(())
    }
}
