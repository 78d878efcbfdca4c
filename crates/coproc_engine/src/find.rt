//! What is found among the uses.
ghost use Rattle.std.specs.Prelude.{◌≡◌, ◌<◌, find, option_copied, Option, Some, None};
ghost use Rattle.std.specs.List.{list_any};
ghost use Rattle.std.specs.Option.{option_map_or};
ghost use Rattle.xif_base.specs.declared.params.Key.{Key};
ghost use Rattle.xif_session.specs.Facts as session;
ghost use Rattle.xif_session.specs.Tests as tests;
ghost use Rattle.xif_drive.specs.Scripts.{IsLawful};
ghost use Rattle.cycle_spec.specs.Engine as spec;

use coproc_config::Hit;
use cycle_spec::{Transaction, Use};
use xif_base::{Key, ReadFlags, WriteFlags};
use xif_drive::Script;
use xif_session::Decision;
use xif_signals::CpuOut;

/// The key on the issue channel.
pub fn issue_key(cpu: &CpuOut) -> Key
    ensures { result ≡ spec.issue_key cpu.now }
{
    Key {
        hart: cpu.issue_hartid,
        id: cpu.issue_id,
    }
}

/// The key on the register channel.
pub fn register_key(cpu: &CpuOut) -> Key
    ensures { result ≡ spec.register_key cpu.now }
{
    Key {
        hart: cpu.register_hartid,
        id: cpu.register_id,
    }
}

/// The key on the commit channel.
pub fn commit_key(cpu: &CpuOut) -> Key
    ensures { result ≡ spec.commit_key cpu.now }
{
    Key {
        hart: cpu.commit_hartid,
        id: cpu.commit_id,
    }
}

pub fn same_key(one: Key, other: Key) -> bool
    ensures { result ≡ session.same_key one other }
{
    one.hart == other.hart && one.id == other.id
}

/// Whether an instruction was killed.
pub fn is_killed(decision: Decision) -> bool
    ensures { result ≡ session.is_killed decision }
{
    match decision {
        Decision::Killed => true,
        Decision::Undecided | Decision::Released => false,
    }
}

/// The registers that an answered use writes.
pub fn writeback_of(hit: Option<Hit>) -> u8
    ensures { result ≡ spec.writeback_of hit }
{
    match hit {
        None => 0,
        Some(hit) => hit.writeback.bits(),
    }
}

/// The halves of lanes that it reads.
pub fn register_read_of(hit: Option<Hit>) -> u8
    ensures { result ≡ spec.register_read_of hit }
{
    match hit {
        None => 0,
        Some(hit) => hit.register_read.bits(),
    }
}

/// Whether the flags of one set are in another one.
pub fn is_within(read: u8, flags: u8) -> bool
    ensures { result ≡ tests.is_within read flags }
{
    flags & read == read
}

/// The latest use of a key.
pub fn latest(key: Key, uses: &[Use]) -> Option<Use>
    ensures { result ≡ spec.latest key uses.now }
{
    let mut newest = None;
    for found in uses {
        if same_key(found.key, key) {
            newest = Some(*found);
        }
    }
    newest
}

/// The start of the latest use of a key; without one, this cycle stands for it.
pub fn latest_start(key: Key, uses: &[Use], cycle: u64) -> u64
    ensures { result ≡ spec.start_of key uses.now cycle }
{
    let mut start = cycle;
    for found in uses {
        if same_key(found.key, key) {
            start = found.start;
        }
    }
    start
}

/// Whether the issue transaction of the last cycle goes on with a key.
pub fn goes_on(waiting: Option<Transaction>, key: Key, uses: &[Use]) -> bool
    ensures { result ≡ spec.goes_on_in waiting key uses.now }
{
    match waiting {
        None => false,
        Some(waiting) => is_any_offered_on(key, waiting.owner, uses),
    }
}

fn is_any_offered_on(key: Key, start: u64, uses: &[Use]) -> bool
    ensures { result ≡ list_any (spec.is_offered_on key start) uses.now }
{
    for found in uses {
        if is_offered_on(key, start, found) {
            return true;
        }
    }
    false
}

fn is_offered_on(key: Key, start: u64, found: &Use) -> bool
    ensures { result ≡ spec.is_offered_on key start found.now }
{
    same_key(found.key, key) && found.start == start && !is_killed(found.decision)
}

/// The start of a use; without one, this cycle stands for it.
pub fn start_or(found: Option<Use>, cycle: u64) -> u64
    ensures { result ≡ option_map_or (λ u. u.start) found cycle }
{
    match found {
        None => cycle,
        Some(found) => found.start,
    }
}

/// The use whose result is offered in a cycle.
pub fn offered_by<'a>(
    waiting: Option<u64>,
    script: &Script,
    cycle: u64,
    uses: &'a [Use],
) -> Option<&'a Use>
    requires { IsLawful script.now }
    ensures { option_copied result
        ≡ spec.offered_by waiting script.now.result cycle uses.now }
{
    match waiting {
        None => first_due(script, cycle, uses),
        Some(start) => first_start(start, uses),
    }
}

fn first_due<'a>(script: &Script, cycle: u64, uses: &'a [Use]) -> Option<&'a Use>
    requires { IsLawful script.now }
    ensures { option_copied result ≡ find (spec.is_due script.now.result cycle) uses.now }
{
    for found in uses {
        if is_due(script, cycle, found) {
            return Some(found);
        }
    }
    None
}

fn is_due(script: &Script, cycle: u64, found: &Use) -> bool
    requires { IsLawful script.now }
    ensures { result ≡ spec.is_due script.now.result cycle found.now }
{
    !found.finished && is_past_ready(script.result(found.order), cycle, found.ready)
}

fn is_past_ready(delay: u16, cycle: u64, ready: Option<u64>) -> bool
    ensures { result ≡ spec.is_past_ready delay cycle ready }
{
    match ready {
        None => false,
        Some(ready) => ready < cycle && u64::from(delay) < cycle - ready,
    }
}

fn first_start(start: u64, uses: &[Use]) -> Option<&Use>
    ensures { option_copied result ≡ find (spec.has_start start) uses.now }
{
    for found in uses {
        if found.start == start {
            return Some(found);
        }
    }
    None
}
