//! What the core drives in a cycle.
ghost use Rattle.std.specs.Prelude.{◌≡◌, ◌<◌, ◌^◌, option_copied};
ghost use Rattle.std.specs.Option.{option_or};
ghost use Rattle.cycle_spec.specs.Core as spec;

use crate::clock::RESULT_OWNER;
use crate::state::CoreState;
use cycle_spec::{Choices, Entry, Presented, turn_of};
use xif_signals::{CopOut, CpuIn, CpuOut};

impl CoreState {
    /// Whether the core takes the result that the coprocessors offer: once the transaction has
    /// waited for its delay (CV-X-IF 1.0.0, "Result interface").
    pub fn accepts(&self, cop: &CopOut) -> CpuIn
        ensures { result ≡ spec.core_accepts self.now cop.now }
    {
        let turn = turn_of(self.result_turns, RESULT_OWNER);
        let past = u64::from(self.script.take(turn.number)) <= turn.age;
        CpuIn {
            result_ready: cop.result_valid && past,
        }
    }
}

/// What the core drives where it does this, but for the result channel. The fields of a channel
/// whose valid is 0 are 0.
pub fn cpu_out(choices: &Choices) -> CpuOut
    ensures value { result ≡ spec.cpu_out choices.now }
    ensures word { result.issue_instr < 2 ^ 32 }
{
    let named = named_by_commit(choices);
    CpuOut {
        issue_valid: choices.offer.is_some(),
        issue_hartid: 0,
        issue_id: id_in(choices.offer.as_ref()),
        issue_instr: word_in(choices.offer.as_ref()),
        register_valid: choices.present.is_some(),
        register_hartid: 0,
        register_id: presented_id(&choices.present),
        register_rs0: presented_lane(0, &choices.present),
        register_rs1: presented_lane(1, &choices.present),
        register_rs2: presented_lane(2, &choices.present),
        register_rs_valid: presented_flags(&choices.present),
        commit_valid: choices.kill.is_some() || choices.release.is_some(),
        commit_hartid: 0,
        commit_id: id_in(named),
        commit_kill: choices.kill.is_some(),
    }
}

/// The word that the commit interface names: at most one of a kill and a release is chosen.
fn named_by_commit(choices: &Choices) -> Option<&Entry>
    ensures { option_copied result ≡ option_or (choices.now).kill (choices.now).release }
{
    match &choices.kill {
        Some(entry) => Some(entry),
        None => choices.release.as_ref(),
    }
}

fn id_in(entry: Option<&Entry>) -> u16
    ensures { result ≡ spec.id_in (option_copied entry.entry) }
{
    match entry {
        Some(entry) => entry.id,
        None => 0,
    }
}

fn word_in(entry: Option<&Entry>) -> u32
    ensures { result ≡ spec.word_in (option_copied entry.entry) }
{
    match entry {
        Some(entry) => entry.word,
        None => 0,
    }
}

fn presented_id(present: &Option<Presented>) -> u16
    ensures { result ≡ spec.presented_id present.now }
{
    match present {
        Some(presented) => presented.entry.id,
        None => 0,
    }
}

fn presented_lane(lane: usize, present: &Option<Presented>) -> u64
    requires { lane < 3 }
    ensures { result ≡ spec.presented_lane lane present.now }
{
    match present {
        Some(presented) => presented.lanes[lane],
        None => 0,
    }
}

fn presented_flags(present: &Option<Presented>) -> u8
    ensures { result ≡ spec.presented_flags present.now }
{
    match present {
        Some(presented) => presented.rs_valid,
        None => 0,
    }
}
