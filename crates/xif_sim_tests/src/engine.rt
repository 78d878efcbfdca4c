//! The engine of the coprocessors: a kill that is repeated, and the state ahead of a release.
ghost use Rattle.std.specs.Prelude.{◌≡◌, ◌<◌, ◌+◌, ◌^◌, IfOk};

use coproc_config::{Entry, Op, Set, UnitState};
use coproc_engine::Engine;
use std::alloc::Global;
use std::process::Abort;
use std::test::Fail;
use xif_base::{NoMemory, Params};
use xif_drive::{Delays, Script, ScriptLists};
use xif_signals::{CopOut, CpuIn, CpuOut};

/// A unit that adds to an accumulator, and reads it.
fn set_a(rt: &impl Abort, alloc: Global) -> Result<Set, NoMemory> {
    let mut set = Set::new(alloc);
    set.unit(2)?;
    for (matched, op) in [(0x0000_000b, Op::AccAdd), (0x0000_200b, Op::AccReadLow)] {
        assert!(rt; set.len() > 0);
        set.entry(Entry {
            mask: 0x0000_707f,
            matched,
            op,
            acc: 0,
            low: 0,
            len: 32,
        })?;
    }
    Ok(set)
}

fn no_delays(alloc: Global) -> Result<Script, NoMemory> {
    let lists = ScriptLists {
        issue: Delays::from_slice(alloc, &[0])?,
        register: Delays::from_slice(alloc, &[0])?,
        operand: Delays::from_slice(alloc, &[0])?,
        result: Delays::from_slice(alloc, &[0])?,
        take: Delays::from_slice(alloc, &[0])?,
    };
    Script::new(alloc, &lists)
}

const PARAMS: Params = Params {
    num_rs: 2,
    id_width: 3,
    rfr_width: 32,
    rfw_width: 32,
    num_harts: 1,
    hartid_width: 1,
    dual_read: 0,
    dual_write: false,
    split: true,
    profile: 1,
};

const IDLE: CpuOut = CpuOut {
    issue_valid: false,
    issue_hartid: 0,
    issue_id: 0,
    issue_instr: 0,
    register_valid: false,
    register_hartid: 0,
    register_id: 0,
    register_rs0: 0,
    register_rs1: 0,
    register_rs2: 0,
    register_rs_valid: 0,
    commit_valid: false,
    commit_hartid: 0,
    commit_id: 0,
    commit_kill: false,
};

fn offer(id: u16, word: u32) -> CpuOut
    requires { id < 8 }
    ensures { (result.issue_hartid ≡ 0) × (result.issue_id < 8) }
{
    CpuOut {
        issue_valid: true,
        issue_id: id,
        issue_instr: word,
        ..IDLE
    }
}

fn commit(id: u16, kill: bool) -> CpuOut
    ensures { (result.issue_hartid ≡ 0) × (result.issue_id < 8) }
{
    CpuOut {
        commit_valid: true,
        commit_id: id,
        commit_kill: kill,
        ..IDLE
    }
}

fn engine(rt: &impl Abort, alloc: Global) -> Result<Engine, NoMemory>
    ensures { IfOk result (λ e.
        (e.cycle ≡ 0) × ((e.params.num_harts ≡ 1) × (e.params.id_width ≡ 3))) }
{
    let set = set_a(rt, alloc)?;
    let script = no_delays(alloc)?;
    assert!(rt; PARAMS.check().is_ok() && set.check().is_ok() && script.check().is_ok());
    Engine::new(alloc, &PARAMS, &set, &script)
}

/// The first accumulator of the first unit.
fn first(rt: &impl Abort, state: &UnitState) -> u64 {
    assert!(rt; state.len() > 0);
    let values = state.unit(0);
    assert!(rt; !values.is_empty());
    values[0]
}

/// A cycle in which no result is taken.
fn step(engine: &mut Engine, cpu: CpuOut) -> CopOut
    requires cycle { engine.old.cycle < 2 ^ 63 }
    requires key { (cpu.issue_hartid ≡ 0) × (cpu.issue_id < 8) }
    requires sizes { (engine.old.params.num_harts ≡ 1) × (engine.old.params.id_width ≡ 3) }
    ensures cycle { engine.new.cycle ≡ engine.old.cycle + 1 }
    ensures params { engine.new.params ≡ engine.old.params }
{
    let cop = engine.drive(&cpu);
    let input = CpuIn {
        result_ready: false,
    };
    engine.clock(&cpu, &cop, &input);
    cop
}

/// A kill names a use that was killed before: it isn't effective, and the younger use stays.
#[test]
fn a_repeated_kill_removes_nothing(rt: HostRuntime) -> Result<(), Fail> {
    let mut engine = engine(&rt, rt.alloc())?;
    let a = step(&mut engine, offer(0, 0x0000_200b));
    assert!(rt; a.issue_ready && a.issue_accept);
    step(&mut engine, commit(0, true));
    step(&mut engine, offer(1, 0x0000_200b));
    step(&mut engine, commit(0, true));
    let b = step(&mut engine, commit(1, false));
    assert!(rt; !b.result_valid);
    let c = step(&mut engine, IDLE);
    assert!(rt; c.result_valid && c.result_id == 1);
    Ok(())
}

/// An accumulator is added to as soon as the operand is here, and a kill takes that back.
#[test]
fn a_kill_takes_back_what_was_ahead(rt: HostRuntime) -> Result<(), Fail> {
    let mut engine = engine(&rt, rt.alloc())?;
    step(&mut engine, offer(0, 0x0000_800b));
    let given = step(
        &mut engine,
        CpuOut {
            register_valid: true,
            register_rs0: 3,
            register_rs_valid: 3,
            ..IDLE
        },
    );
    assert!(rt; given.register_ready);
    assert!(rt; first(&rt, engine.ahead(0)) == 3);
    assert!(rt; first(&rt, engine.state(0)) == 0);
    step(&mut engine, commit(0, true));
    assert!(rt; first(&rt, engine.ahead(0)) == 0);
    assert!(rt; first(&rt, engine.state(0)) == 0);
    Ok(())
}
