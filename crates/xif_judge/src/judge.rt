//! The judge, which takes the samples of a waveform in order.
ghost use Rattle.std.specs.Prelude.{◌≡◌, ◌<◌, ◌≤◌, ◌+◌, ◌-◌, ◌^◌, List, [], ◌∷◌, IfOk, IfSome, OnOk, Err};
ghost use Rattle.xif_base.specs.declared.params.Params.{Params};
ghost use Rattle.xif_base.specs.Params.{IsInRange};
ghost use Rattle.xif_signals.specs.declared.sample.Quad.{Quad};
ghost use Rattle.xif_judge.specs.Rules.{past_at};
ghost use Rattle.xif_judge.specs.Faults as rules;
ghost use Rattle.xif_judge.specs.Histories.{first_fault};
ghost use Rattle.xif_judge.specs.Judging.{HasFollowed, CanJudge, Represents, answer_of, fault_answer};

use crate::session_judge::SessionJudge;
use crate::verdict::{Fault, Verdict};
use std::alloc::Global;
use std::marker::Model;
use xif_base::{NoMemory, Params};
use xif_signals::Sample;

/// Takes the samples of a waveform in order, and reports the first fault by the rules of a session.
///
/// A cycle is a sample, and the first one has the number 0. Cycles in which rst_n isn't known to be
/// 1 belong to no session: no rule is judged in them, and what came before them is forgotten. In a
/// cycle of a session the rules are judged in the order of `Rule`.
#[derive(Debug, Drop)]
pub struct Judge {
    params: Params,
    /// The number of samples that it took.
    cycles: u64,
    /// The first fault so far. No rule is judged any more once there is one.
    verdict: Option<Verdict>,
    session: SessionJudge,
}

impl Model for Judge {
    ghost use Rattle.std.specs.Prelude.{◌≡◌, ◌≤◌, None};
    ghost use Rattle.xif_base.specs.Params.{IsInRange};
    ghost use Rattle.xif_judge.specs.Judging.{Judging, CanJudge};

    ghost Value = { Judging };

    ghost view = { λ j. record {
      params = j.params;
      cycles = j.cycles;
      verdict = j.verdict;
      session = j.session;
    } };

    ghost invariant = { λ j. IsInRange j.params
        × ((j.verdict ≡ None → CanJudge j.session j.params) × (j.session.cycles ≤ j.cycles)) };
}

impl Judge {
    /// A judge that has taken no sample. It takes all memory that it ever takes.
    pub fn new(alloc: Global, params: &Params) -> Result<Judge, NoMemory>
        requires { IsInRange params.now }
        ensures { IfOk result (λ judge. Represents judge params.now []) }
    {
        Ok(Judge {
            params: *params,
            cycles: 0,
            verdict: None,
            session: SessionJudge::new(alloc, params)?,
        })
    }

    /// Judges the next cycle, and returns the first fault so far, which stays the same from then
    /// on. It allocates nothing.
    pub fn step(&mut self, sample: &Sample) -> Result<(), Verdict>
        requires room { self.old.cycles < 2 ^ 64 - 1 }
        ensures count { self.new.cycles ≡ self.old.cycles + 1 }
        ensures represents { (params : Params) (history : List (List Quad))
            → Represents self.old params history
            → Represents self.new params (sample.now ∷ history) }
        ensures answer { (params : Params) (history : List (List Quad))
            → Represents self.old params history
            → result ≡ answer_of (first_fault params (sample.now ∷ history)) }
        ensures kept { IfSome self.old.verdict (λ verdict. result ≡ Err verdict) }
    {
        let cycle = self.cycles;
        self.cycles += 1;
        if let Some(verdict) = self.verdict {
            return Err(verdict);
        }
        match judge_cycle(&mut self.session, &self.params, sample) {
            Ok(()) => Ok(()),
            Err(fault) => {
                let verdict = fault.on(cycle);
                self.verdict = Some(verdict);
                Err(verdict)
            }
        }
    }

    /// The number of samples that it took.
    pub fn cycles(&self) -> u64
        ensures { result ≡ self.now.cycles }
    {
        self.cycles
    }

    /// The first fault so far.
    pub fn verdict(&self) -> Option<Verdict>
        ensures { result ≡ self.now.verdict }
    {
        self.verdict
    }
}

/// Judges the next cycle, and returns its fault.
fn judge_cycle(session: &mut SessionJudge, params: &Params, sample: &Sample) -> Result<(), Fault>
    requires range { IsInRange params.now }
    requires ready { CanJudge session.old params.now }
    requires room { session.old.cycles < 2 ^ 64 - 1 }
    ensures fault { (older : List (List Quad))
        → HasFollowed session.old params.now (past_at params.now older)
        → result ≡ fault_answer (rules.fault_now params.now older sample.now) }
    ensures followed { (older : List (List Quad))
        → HasFollowed session.old params.now (past_at params.now older)
        → OnOk result (HasFollowed session.new params.now
        (past_at params.now (sample.now ∷ older))) }
    ensures ready { OnOk result (CanJudge session.new params.now) }
    ensures cycles { session.new.cycles ≤ session.old.cycles + 1 }
{
    if !sample.is_in_session(params) {
        session.reset();
        return Ok(());
    }
    let bus = sample.known(params)?;
    session.step(params, &bus)?;
    Ok(())
}
