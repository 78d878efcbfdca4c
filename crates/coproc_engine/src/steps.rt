//! The steps of a cycle on the uses, in their order.
ghost use Rattle.std.specs.Prelude.{◌≡◌, ◌<◌, ◌≤◌, not, length, map, filter, vec_capacity, Option, IsTrue};
ghost use Rattle.std.specs.Option.{option_map};
ghost use Rattle.xif_base.specs.Params.{IsInRange};
ghost use Rattle.coproc_config.specs.Check.{IsLawful};
ghost use Rattle.coproc_config.specs.Accept.{hit_of};
ghost use Rattle.xif_signals.specs.declared.signal.Signal.TheVariants.{ResultData, ResultWe};
ghost use Rattle.xif_signals.specs.Signal.{width_of};
ghost use Rattle.xif_session.specs.Facts as session;
ghost use Rattle.cycle_spec.specs.declared.use_of.Use.{Use};
ghost use Rattle.cycle_spec.specs.Engine as spec;
ghost use Rattle.coproc_engine.specs.Fits.{HaveEntries, AreNarrow};

use crate::find::{commit_key, issue_key, latest, register_key, same_key};
use coproc_config::{Hit, Set};
use cycle_spec::Use;
use xif_base::{Key, Params};
use xif_session::Decision;
use xif_signals::{CopOut, CpuIn, CpuOut};

// ---- the start

/// A use that starts in a cycle.
pub fn new_use(key: Key, start: u64, word: u32) -> Use
    ensures { result ≡ spec.new_use key start word }
{
    Use {
        key,
        start,
        word,
        hit: None,
        order: 0,
        given: false,
        lanes: [0; 3],
        decision: Decision::Undecided,
        finished: false,
        ready: None,
        result: 0,
    }
}

/// An offer that goes on no issue transaction starts a use. It takes the place of the older use of
/// its key, so that the uses have room where each key has a place.
pub fn start_step(uses: &mut Vec<Use>, starts: bool, cpu: &CpuOut, cycle: u64)
    requires room { IsTrue starts
        → length (filter (λ other. not (spec.has_key (spec.issue_key cpu.now) other))
        uses.old.items) < vec_capacity uses.old }
    ensures uses { uses.new.items ≡ spec.start_step starts cpu.now cycle uses.old.items }
    ensures capacity { vec_capacity uses.old ≤ vec_capacity uses.new }
{
    if starts {
        let key = issue_key(cpu);
        remove_key(uses, key);
        if uses.push(new_use(key, cycle, cpu.issue_instr)).is_err() {
            unreachable!();
        }
    }
}

fn remove_key(uses: &mut Vec<Use>, key: Key)
    ensures uses { uses.new.items ≡ filter (λ other. not (spec.has_key key other)) uses.old.items }
    ensures capacity { vec_capacity uses.new ≡ vec_capacity uses.old }
{
    let mut i = 0;
    while i < uses.len() {
        if same_key(uses[i].key, key) {
            uses.remove(i);
        } else {
            i += 1;
        }
    }
}

// ---- the issue handshake

/// At the issue handshake the use with a start is answered.
pub fn answer_step(
    uses: &mut [Use],
    start: u64,
    set: &Set,
    params: &Params,
    order: u64,
    cpu: &CpuOut,
    cop: &CopOut,
)
    requires lawful { IsLawful set.now }
    requires params { IsInRange params.now }
    ensures uses { uses.new
        ≡ spec.answer_step start (hit_of set.now params.now cpu.now.issue_instr) order cpu.now
        cop.now uses.old }
    ensures entries { HaveEntries set.now uses.old → HaveEntries set.now uses.new }
    ensures narrow { let flags = width_of ResultWe params.now in
        let bits = width_of ResultData params.now in
        AreNarrow flags bits uses.old → AreNarrow flags bits uses.new }
{
    if cpu.issue_valid && cop.issue_ready {
        let hit = set.accept(params, cpu.issue_instr);
        answer(uses, start, hit, order);
    }
}

fn answer(uses: &mut [Use], start: u64, hit: Option<Hit>, order: u64)
    ensures { uses.new ≡ map (spec.with_answer start hit order) uses.old }
{
    for entry in uses.iter_mut() {
        answer_use(entry, start, hit, order);
    }
}

fn answer_use(entry: &mut Use, start: u64, hit: Option<Hit>, order: u64)
    ensures { entry.new ≡ spec.with_answer start hit order entry.old }
{
    if entry.start == start {
        entry.hit = hit;
        entry.order = order;
    }
}

// ---- the register handshake

/// At the register handshake the use that is named has its registers.
pub fn given_step(uses: &mut [Use], cpu: &CpuOut, cop: &CopOut)
    ensures { uses.new ≡ spec.given_step cpu.now cop.now uses.old }
{
    if cpu.register_valid && cop.register_ready {
        if let Some(named) = latest(register_key(cpu), uses) {
            let lanes = [cpu.register_rs0, cpu.register_rs1, cpu.register_rs2];
            give(uses, named.start, lanes);
        }
    }
}

fn give(uses: &mut [Use], start: u64, lanes: [u64; 3])
    ensures { uses.new ≡ map (spec.with_operands start lanes) uses.old }
{
    for entry in uses.iter_mut() {
        give_use(entry, start, lanes);
    }
}

fn give_use(entry: &mut Use, start: u64, lanes: [u64; 3])
    ensures { entry.new ≡ spec.with_operands start lanes entry.old }
{
    if entry.start == start {
        entry.given = true;
        entry.lanes = lanes;
    }
}

// ---- the commit

/// A commit that names an undecided use decides the undecided uses of its group.
pub fn decide_step(uses: &mut [Use], cpu: &CpuOut)
    ensures { uses.new ≡ spec.decide_step cpu.now uses.old }
{
    if cpu.commit_valid {
        if let Some(named) = latest(commit_key(cpu), uses) {
            if is_undecided(named.decision) {
                decide(uses, cpu.commit_kill, &named);
            }
        }
    }
}

fn decide(uses: &mut [Use], kill: bool, named: &Use)
    ensures { uses.new ≡ map (spec.with_decision kill named.now) uses.old }
{
    for entry in uses.iter_mut() {
        decide_use(entry, kill, named);
    }
}

fn decide_use(entry: &mut Use, kill: bool, named: &Use)
    ensures { entry.new ≡ spec.with_decision kill named.now entry.old }
{
    entry.decision = decision_after(is_in_group(kill, named, entry), kill, entry.decision);
}

/// A kill takes the named use and those of its hart that started later, a release the named one
/// and those that started earlier.
fn is_in_group(kill: bool, named: &Use, entry: &Use) -> bool
    ensures { result ≡ spec.is_in_group kill named.now entry.now }
{
    entry.key.hart == named.key.hart && is_covered(kill, named.start, entry.start)
}

fn is_covered(kill: bool, named: u64, start: u64) -> bool
    ensures { result ≡ session.is_covered kill named start }
{
    if kill { named <= start } else { start <= named }
}

fn decision_after(is_in_group: bool, kill: bool, decision: Decision) -> Decision
    ensures { result ≡ session.decision_after is_in_group kill decision }
{
    if !(is_in_group && is_undecided(decision)) {
        decision
    } else if kill {
        Decision::Killed
    } else {
        Decision::Released
    }
}

fn is_undecided(decision: Decision) -> bool
    ensures { result ≡ session.is_undecided decision }
{
    match decision {
        Decision::Undecided => true,
        Decision::Released | Decision::Killed => false,
    }
}

// ---- the result handshake

/// At the result handshake the use whose result is offered is finished.
pub fn end_step(uses: &mut [Use], offered: Option<u64>, cop: &CopOut, input: &CpuIn)
    ensures { (found : Option Use) → offered ≡ option_map (λ u. u.start) found
        → uses.new ≡ spec.end_step found cop.now input.now uses.old }
{
    if cop.result_valid && input.result_ready {
        if let Some(start) = offered {
            end(uses, start);
        }
    }
}

fn end(uses: &mut [Use], start: u64)
    ensures { uses.new ≡ map (spec.with_end start) uses.old }
{
    for entry in uses.iter_mut() {
        end_use(entry, start);
    }
}

fn end_use(entry: &mut Use, start: u64)
    ensures { entry.new ≡ spec.with_end start entry.old }
{
    if entry.start == start {
        entry.finished = true;
    }
}
