//! The commit side of the judge.
ghost use Rattle.std.specs.Prelude.{◌≡◌, ℕ, false, IsTrue, IfSome, OnOk};
ghost use Rattle.std.specs.Option.{option_map};
ghost use Rattle.xif_base.specs.declared.params.Key.{Key};
ghost use Rattle.xif_base.specs.declared.params.Params.{Params};
ghost use Rattle.xif_signals.specs.declared.rule.Channel.TheVariants.{Commit};
ghost use Rattle.xif_session.specs.Facts.{Past, commit_key, has_killed, named, answered_on, given_on, now};
ghost use Rattle.xif_session.specs.Tests.{answer_of, first_fault_in, fault_on, commit_rules};
ghost use Rattle.xif_uses.specs.Table.{IsKey, Represents, StartsBefore, facts_in, fact_of};
ghost use Rattle.issue_channel.specs.Following.{HasIssued, HasDecided, IsOpen, IsReady, OffersNewest};
ghost use Rattle.commit_channel.specs.Committed.{broken_rule, still_open};

use issue_channel::IssueSide;
use xif_signals::{Bus, Channel, Rule};
use xif_uses::{Decided, Decision, Fault, Use, UseTable};

/// Judges the rules of the commit channel. It remembers nothing between two cycles.
#[derive(Clone, Copy, Debug, PartialEq, Eq)]
pub struct CommitSide;

impl CommitSide {
    /// A side before the first cycle of a session.
    pub fn new() -> CommitSide {
        CommitSide
    }

    /// Starts a new session.
    pub fn reset(&mut self) {}

    /// Takes the commit of a cycle: judges its rules, decides uses, and cuts the open issue
    /// transaction if a kill covers it.
    pub fn step(
        &mut self,
        uses: &mut UseTable,
        issue: &mut IssueSide,
        bus: &Bus,
    ) -> Result<(), Fault>
        requires key { IsTrue bus.now.commit_valid → IsKey uses.old.params (commit_key bus.now) }
        requires offered { IfSome issue.old.issue (IsOpen uses.old) }
        requires newest { OffersNewest uses.old bus.now }
        ensures fault { (params : Params) (p : Past) → HasIssued issue.old uses.old params p bus.now
            → result ≡ answer_of (first_fault_in commit_rules params p bus.now) }
        ensures follows { (params : Params) (p : Past)
            → HasIssued issue.old uses.old params p bus.now
            → OnOk result (HasDecided issue.new uses.new params p bus.now) }
        ensures ready { (cycle : ℕ) → IsReady issue.old uses.old cycle
            → OnOk result (IsReady issue.new uses.new cycle) }
        ensures params { uses.new.params ≡ uses.old.params }
    {
        decide(uses, bus)?;
        cut_killed(uses, issue);
        Ok(())
    }
}

/// Decides uses by the commit of a cycle, if there is one.
fn decide(uses: &mut UseTable, bus: &Bus) -> Result<(), Fault>
    requires key { IsTrue bus.now.commit_valid → IsKey uses.old.params (commit_key bus.now) }
    requires newest { OffersNewest uses.old bus.now }
    ensures fault { (params : Params) (p : Past)
        → Represents uses.old params (given_on bus.now (answered_on bus.now (named p bus.now)))
        → result ≡ answer_of (first_fault_in commit_rules params p bus.now) }
    ensures facts { (params : Params) (p : Past)
        → Represents uses.old params (given_on bus.now (answered_on bus.now (named p bus.now)))
        → OnOk result (Represents uses.new params (now p bus.now)) }
    ensures starts { (cycle : ℕ) → StartsBefore uses.old cycle → StartsBefore uses.new cycle }
    ensures offered { (key : Key) → IsOpen uses.old key
        → has_killed (facts_in uses.new key) ≡ false → IsOpen uses.new key }
    ensures params { uses.new.params ≡ uses.old.params }
{
    if !bus.commit_valid {
        return Ok(());
    }
    check(uses.decide(bus.key(Channel::Commit), bus.commit_kill), bus)
}

/// The fault of a commit that breaks a rule.
fn check(decided: Decided, bus: &Bus) -> Result<(), Fault>
    ensures { result
        ≡ answer_of (option_map (λ rule. fault_on rule Commit bus.now) (broken_rule decided)) }
{
    let rule = match decided {
        Decided::Taken | Decided::Repeat => return Ok(()),
        Decided::NoUse => Rule::C1,
        Decided::WasKilled => Rule::C2,
        Decided::WasReleased | Decided::OutOfOrder => Rule::C3,
    };
    Err(Fault {
        rule,
        channel: Channel::Commit,
        key: bus.key(Channel::Commit),
    })
}

/// The issue transaction that waits ends where its use is killed.
fn cut_killed(uses: &UseTable, issue: &mut IssueSide)
    requires { IfSome issue.old.issue (IsKey uses.now.params) }
    ensures { issue.new ≡ record issue.old { issue = still_open uses.now issue.old.issue } }
{
    if let Some(key) = issue.waiting()
        && is_killed(uses.latest(key))
    {
        issue.cut();
    }
}

fn is_killed(latest: Option<Use>) -> bool
    ensures { result ≡ has_killed (option_map fact_of latest) }
{
    match latest {
        None => false,
        Some(latest) => latest.decision == Decision::Killed,
    }
}
