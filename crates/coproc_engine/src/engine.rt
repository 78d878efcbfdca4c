//! The engine: what the coprocessors drive in a cycle, and their state after it.
ghost use Rattle.std.specs.Prelude.{◌≡◌, ◌&&◌, ◌<◌, ◌≤◌, ◌^◌, ◌==◌, if◌then◌else◌, true, IfOk, IfSome, IsTrue, Option, option_copied, length, replicate, All};
ghost use Rattle.std.specs.Option.{option_map};
ghost use Rattle.rv32_table.specs.Instr.{rd_field as rd_of};
ghost use Rattle.xif_base.specs.Params.{IsInRange};
ghost use Rattle.xif_base.specs.declared.params.Key.{Key};
ghost use Rattle.xif_drive.specs.Scripts.{IsLawful as IsLawfulScript};
ghost use Rattle.coproc_config.specs.Check.{IsLawful as IsLawfulSet};
ghost use Rattle.coproc_config.specs.Accept.{IsAllowed};
ghost use Rattle.coproc_config.specs.State.{zeros, IsStateOf};
ghost use Rattle.cycle_spec.specs.declared.use_of.Use.{Use};
ghost use Rattle.cycle_spec.specs.State.{new_engine};
ghost use Rattle.cycle_spec.specs.Engine.{engine_drive, engine_clock, units_of, units_ahead};
ghost use Rattle.cycle_spec.specs.Engine as spec;
ghost use Rattle.cycle_spec.specs.Turns as turns;
ghost use Rattle.coproc_engine.specs.Drives.{FitsCopOut};
ghost use Rattle.coproc_engine.specs.Fits.{IsKey, FitsResult, room_of};

use crate::ahead::look_ahead;
use crate::find::{
    goes_on, is_killed, is_within, issue_key, latest, latest_start, offered_by, register_key,
    register_read_of, same_key, start_or, writeback_of,
};
use crate::settle::settle;
use crate::steps::{answer_step, decide_step, end_step, given_step, new_use, start_step};
use coproc_config::{Hit, Set, UnitState};
use cycle_spec::{NO_TRANSACTIONS, Transactions, Use, transactions_after, turn_of};
use rv32_table::rd_field;
use std::alloc::Global;
use std::marker::Model;
use xif_base::{Key, NoMemory, Params};
use xif_drive::Script;
use xif_signals::{CopOut, CpuIn, CpuOut};

/// Each channel is idle.
const NOTHING: CopOut = CopOut {
    issue_ready: false,
    issue_accept: false,
    issue_writeback: 0,
    issue_register_read: 0,
    register_ready: false,
    result_valid: false,
    result_hartid: 0,
    result_id: 0,
    result_data: 0,
    result_rd: 0,
    result_we: 0,
};

/// The coprocessors, for all harts.
#[derive(Debug, Drop)]
pub struct Engine {
    params: Params,
    set: Set,
    script: Script,
    cycle: u64,
    /// The latest use of each key, in the order of their starts, with room for each key.
    uses: Vec<Use>,
    accepted: u64,
    /// Hart by hart, after the ready uses.
    units: Vec<UnitState>,
    /// Hart by hart, ahead of the releases.
    ahead: Vec<UnitState>,
    issue_turns: Transactions,
    register_turns: Transactions,
    result_waiting: Option<u64>,
}

impl Model for Engine {
    ghost use Rattle.std.specs.Prelude.{◌≡◌, vec_capacity};
    ghost use Rattle.cycle_spec.specs.State.{Engine as State};
    ghost use Rattle.coproc_engine.specs.Fits.{IsSetUp, AreUnits, AreUses, IsCounted, ahead_in_harts};

    ghost Value = { State };

    ghost view = { λ e. record {
      params = e.params;
      set = e.set;
      script = e.script;
      cycle = e.cycle;
      uses = e.uses.items;
      accepted = e.accepted;
      units = e.units.items;
      issue_turns = e.issue_turns;
      register_turns = e.register_turns;
      result_waiting = e.result_waiting;
    } };

    ghost invariant = { λ e. IsSetUp e.params e.set e.script
        × (AreUnits e.params e.set e.units.items
        × (AreUses e.params e.set e.uses.items (vec_capacity e.uses)
        × (AreUnits e.params e.set e.ahead.items
        × ((e.ahead.items ≡ ahead_in_harts e.set 0 e.units.items e.uses.items)
        × IsCounted e.cycle e.accepted e.issue_turns e.register_turns)))) };
}

impl Engine {
    /// An engine before the first cycle. It takes all memory: a use for each key of the interface,
    /// and the accumulators of the units for each hart.
    pub fn new(
        alloc: Global,
        params: &Params,
        set: &Set,
        script: &Script,
    ) -> Result<Engine, NoMemory>
        requires params { IsInRange params.now }
        requires set { IsLawfulSet set.now }
        requires script { IsLawfulScript script.now }
        ensures { IfOk result (λ engine. engine ≡ new_engine params.now set.now script.now) }
    {
        Ok(Engine {
            params: *params,
            set: set.copy(alloc)?,
            script: script.copy(alloc)?,
            cycle: 0,
            uses: Vec::with_capacity(alloc, key_count(params))?,
            accepted: 0,
            units: new_units(alloc, params.num_harts, set)?,
            ahead: new_units(alloc, params.num_harts, set)?,
            issue_turns: NO_TRANSACTIONS,
            register_turns: NO_TRANSACTIONS,
            result_waiting: None,
        })
    }

    /// What the coprocessors drive in a cycle in which the core drives `cpu`.
    pub fn drive(&self, cpu: &CpuOut) -> CopOut
        ensures value { result ≡ engine_drive self.now cpu.now }
        ensures fits { FitsCopOut self.now.params result }

        // The parameters are in their ranges.
        ensures params { IsInRange self.now.params }
    {
        let _ = &self.params;
        let starts = self.starts(cpu);
        let issue_ready = self.issue_ready(starts, cpu);
        let hit = self.response_hit(issue_ready, cpu);
        let register_ready = self.register_ready(starts, issue_ready, cpu);
        cop_out(issue_ready, hit, register_ready, self.offered_use())
    }

    /// The end of a cycle.
    pub fn clock(&mut self, cpu: &CpuOut, cop: &CopOut, input: &CpuIn)
        requires key { IsTrue cpu.now.issue_valid → IsKey self.old.params (spec.issue_key cpu.now) }
        requires count { self.old.cycle < 2 ^ 63 }
        ensures after { self.new ≡ engine_clock self.old cpu.now cop.now input.now }

        // No more uses are kept than there are keys.
        ensures few { length self.new.uses ≤ room_of self.old.params }
    {
        let starts = self.starts(cpu);
        let issue_start = self.issue_start(starts, cpu);
        let register_owner = self.register_owner(starts, cpu);
        let offered = start_of(self.offered_use());
        start_step(&mut self.uses, starts, cpu, self.cycle);
        let uses = self.uses.as_mut_slice();
        answer_step(
            uses,
            issue_start,
            &self.set,
            &self.params,
            self.accepted,
            cpu,
            cop,
        );
        given_step(uses, cpu, cop);
        decide_step(uses, cpu);
        end_step(uses, offered, cop, input);
        settle(&self.set, self.cycle, &mut self.units, uses);
        look_ahead(&self.set, &self.units, uses, &mut self.ahead);
        self.accepted = accepted_after(self.accepted, cpu, cop);
        self.issue_turns = transactions_after(
            self.issue_turns,
            owner_if(cpu.issue_valid, issue_start),
            cop.issue_ready,
        );
        self.register_turns = transactions_after(
            self.register_turns,
            register_owner,
            cop.register_ready,
        );
        self.result_waiting = result_waiting_after(offered, input);
        self.cycle += 1;
    }

    /// The accumulators of a hart after its ready instructions.
    pub fn state(&self, hart: u8) -> &UnitState
        requires { hart < self.now.params.num_harts }
        ensures value { result.now ≡ units_of self.now hart }
        ensures fits { IsStateOf self.now.set result.now }
    {
        &self.units[usize::from(hart)]
    }

    /// The accumulators of a hart ahead of the releases: after its ready instructions, and after
    /// those that have the registers that they read, in the order of their issue handshakes, up to
    /// the first that hasn't. A kill takes back what the killed ones changed.
    pub fn ahead(&self, hart: u8) -> &UnitState
        requires { hart < self.now.params.num_harts }
        ensures value { result.now ≡ units_ahead self.now hart }
        ensures fits { IsStateOf self.now.set result.now }
    {
        &self.ahead[usize::from(hart)]
    }

    // ---- the issue channel

    /// Whether an offer starts a use.
    fn starts(&self, cpu: &CpuOut) -> bool
        ensures { result ≡ spec.starts self.now cpu.now }
    {
        cpu.issue_valid && !goes_on(self.issue_turns.waiting, issue_key(cpu), &self.uses)
    }

    /// The latest use of a key, the one that starts in this cycle among them.
    fn started_latest(&self, starts: bool, key: Key, cpu: &CpuOut) -> Option<Use>
        requires { starts ≡ spec.starts self.now cpu.now }
        ensures { result ≡ spec.latest key (spec.started_uses self.now cpu.now) }
    {
        let offered = issue_key(cpu);
        if starts && same_key(offered, key) {
            Some(new_use(offered, self.cycle, cpu.issue_instr))
        } else {
            latest(key, &self.uses)
        }
    }

    /// The start of that use; without one, this cycle stands for it.
    fn started_start(&self, starts: bool, key: Key, cpu: &CpuOut) -> u64
        requires { starts ≡ spec.starts self.now cpu.now }
        ensures { result
            ≡ spec.start_of key (spec.started_uses self.now cpu.now) self.now.cycle }
    {
        if starts && same_key(issue_key(cpu), key) {
            self.cycle
        } else {
            latest_start(key, &self.uses, self.cycle)
        }
    }

    fn issue_start(&self, starts: bool, cpu: &CpuOut) -> u64
        requires { starts ≡ spec.starts self.now cpu.now }
        ensures { result ≡ spec.issue_start self.now cpu.now }
    {
        self.started_start(starts, issue_key(cpu), cpu)
    }

    /// What the units answer to the word.
    fn offered_hit(&self, cpu: &CpuOut) -> Option<Hit>
        ensures value { result ≡ spec.offered_hit self.now cpu.now }
        ensures allowed { IfSome result (IsAllowed (self.now).params (cpu.now).issue_instr) }
    {
        self.set.accept(&self.params, cpu.issue_instr)
    }

    /// The same at the issue handshake.
    fn response_hit(&self, issue_ready: bool, cpu: &CpuOut) -> Option<Hit>
        requires { issue_ready ≡ spec.issue_ready self.now cpu.now }
        ensures value { result ≡ spec.response_hit self.now cpu.now }
        ensures allowed { IfSome result (IsAllowed (self.now).params (cpu.now).issue_instr) }
    {
        if issue_ready {
            self.offered_hit(cpu)
        } else {
            None
        }
    }

    fn issue_ready(&self, starts: bool, cpu: &CpuOut) -> bool
        requires { starts ≡ spec.starts self.now cpu.now }
        ensures { result ≡ spec.issue_ready self.now cpu.now }
    {
        cpu.issue_valid
            && self.is_past_issue(self.issue_start(starts, cpu))
            && may_answer(
                self.params.split,
                self.offered_hit(cpu),
                cpu.register_rs_valid,
            )
    }

    fn is_past_issue(&self, start: u64) -> bool
        ensures { result
            ≡ turns.is_past self.now.script.issue (turns.turn_of self.now.issue_turns start) }
    {
        let turn = turn_of(self.issue_turns, start);
        u64::from(self.script.issue(turn.number)) <= turn.age
    }

    // ---- the register channel

    fn register_start(&self, starts: bool, cpu: &CpuOut) -> u64
        requires { starts ≡ spec.starts self.now cpu.now }
        ensures { result ≡ spec.register_start self.now cpu.now }
    {
        self.started_start(starts, register_key(cpu), cpu)
    }

    /// Whose transaction is on the channel, if there is one.
    fn register_owner(&self, starts: bool, cpu: &CpuOut) -> Option<u64>
        requires { starts ≡ spec.starts self.now cpu.now }
        ensures { result
            ≡ spec.owner_if cpu.now.register_valid (spec.register_start self.now cpu.now) }
    {
        if cpu.register_valid {
            Some(self.register_start(starts, cpu))
        } else {
            None
        }
    }

    fn register_ready(&self, starts: bool, issue_ready: bool, cpu: &CpuOut) -> bool
        requires starts { starts ≡ spec.starts self.now cpu.now }
        requires issue_ready { issue_ready ≡ spec.issue_ready self.now cpu.now }
        ensures { result ≡ spec.register_ready self.now cpu.now }
    {
        if self.params.split {
            cpu.register_valid && self.takes_registers(starts, cpu)
        } else {
            issue_ready
        }
    }

    /// With split channels: whether the delay has passed, and the use that is named may take its
    /// registers.
    fn takes_registers(&self, starts: bool, cpu: &CpuOut) -> bool
        requires { starts ≡ spec.starts self.now cpu.now }
        ensures { result
            ≡ (turns.is_past self.now.script.register
            (turns.turn_of self.now.register_turns (spec.register_start self.now cpu.now))
            && spec.may_take (spec.register_use self.now cpu.now) cpu.now.register_rs_valid) }
    {
        let named = self.started_latest(starts, register_key(cpu), cpu);
        let turn = turn_of(self.register_turns, start_or(named, self.cycle));
        u64::from(self.script.register(turn.number)) <= turn.age
            && may_take(named, cpu.register_rs_valid)
    }

    // ---- the result channel

    /// The use whose result is offered.
    fn offered_use(&self) -> Option<&Use>
        ensures value { option_copied result ≡ spec.offered_use self.now }
        ensures fits { IfSome (option_copied result) (FitsResult (self.now).params) }
    {
        offered_by(self.result_waiting, &self.script, self.cycle, &self.uses)
    }
}

/// How many keys the interface has.
fn key_count(params: &Params) -> usize
    requires { IsInRange params.now }
    ensures { result ≡ room_of params.now }
{
    usize::from(params.num_harts) << params.id_width
}

/// The accumulators of each hart, 0 each.
fn new_units(alloc: Global, harts: u8, set: &Set) -> Result<Vec<UnitState>, NoMemory>
    ensures zeros { IfOk result (λ units. units.items ≡ replicate harts (zeros set.now)) }
    ensures states { IfOk result (λ units. All (IsStateOf set.now) units.items) }
{
    let mut units = Vec::new(alloc);
    for _ in 0..harts {
        units.push(UnitState::new(alloc, set)?)?;
    }
    Ok(units)
}

fn may_answer(split: bool, hit: Option<Hit>, rs_valid: u8) -> bool
    ensures { result ≡ spec.may_answer split hit rs_valid }
{
    match hit {
        None => true,
        Some(hit) => split || is_within(hit.register_read.bits(), rs_valid),
    }
}

fn may_take(named: Option<Use>, rs_valid: u8) -> bool
    ensures { result ≡ spec.may_take named rs_valid }
{
    match named {
        None => false,
        Some(named) => {
            named.hit.is_some()
                && !is_killed(named.decision)
                && is_within(register_read_of(named.hit), rs_valid)
        }
    }
}

fn cop_out(
    issue_ready: bool,
    hit: Option<Hit>,
    register_ready: bool,
    offered: Option<&Use>,
) -> CopOut
    ensures { result ≡ spec.cop_out issue_ready hit register_ready (option_copied offered.entry) }
{
    let channels = CopOut {
        issue_ready,
        issue_accept: hit.is_some(),
        issue_writeback: writeback_of(hit),
        issue_register_read: register_read_of(hit),
        register_ready,
        ..NOTHING
    };
    match offered {
        None => channels,
        Some(found) => with_result(channels, found),
    }
}

/// The result channel offers the result of a use.
fn with_result(channels: CopOut, found: &Use) -> CopOut
    ensures { result ≡ record channels {
      result_valid = true;
      result_hartid = (found.now).key.hart;
      result_id = (found.now).key.id;
      result_data = (found.now).result;
      result_rd = if spec.writeback_of (found.now).hit == 0 then 0 else rd_of (found.now).word;
      result_we = spec.writeback_of (found.now).hit;
    } }
{
    let writeback = writeback_of(found.hit);
    CopOut {
        result_valid: true,
        result_hartid: found.key.hart,
        result_id: found.key.id,
        result_data: found.result,
        result_rd: if writeback == 0 {
            0
        } else {
            rd_field(found.word)
        },
        result_we: writeback,
        ..channels
    }
}

fn owner_if(valid: bool, start: u64) -> Option<u64>
    ensures { result ≡ spec.owner_if valid start }
{
    if valid { Some(start) } else { None }
}

fn start_of(found: Option<&Use>) -> Option<u64>
    ensures { result ≡ option_map (λ u. u.start) (option_copied found.entry) }
{
    match found {
        Some(found) => Some(found.start),
        None => None,
    }
}

fn result_waiting_after(offered: Option<u64>, input: &CpuIn) -> Option<u64>
    ensures { (found : Option Use) → offered ≡ option_map (λ u. u.start) found
        → result ≡ spec.result_waiting_after found input.now }
{
    if input.result_ready { None } else { offered }
}

fn accepted_after(accepted: u64, cpu: &CpuOut, cop: &CopOut) -> u64
    requires { accepted < 2 ^ 63 }
    ensures { result ≡ spec.accepted_after accepted cpu.now cop.now }
{
    if cpu.issue_valid && cop.issue_ready && cop.issue_accept {
        accepted + 1
    } else {
        accepted
    }
}
