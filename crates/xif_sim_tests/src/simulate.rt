//! Runs of core and coprocessors: one that goes on after a drain, and ones whose predictor is always
//! wrong. What `xif run` can show is in tests/runs.txt.
ghost use Rattle.std.specs.Prelude.{◌≡◌, ◌<◌, ◌≤◌, ◌+◌, ◌^◌, ℕ, IfOk, length};
ghost use Rattle.xif_base.specs.declared.params.Params.{Params as Parameters};
ghost use Rattle.cycle_spec.specs.Counts.{IsCountedBy};
ghost use Rattle.cycle_spec.specs.State.{Core as CoreState, Engine as EngineState};
ghost use Rattle.xif_drive.specs.Predictors.{following};
ghost use Rattle.xif_sim.specs.Setup.{IsLawfulSetup};

use coproc_config::{Entry, Op, Set, UnitState};
use coproc_engine::Engine;
use inorder_machine::StopCause;
use spec_core::Core;
use std::alloc::Global;
use std::process::Abort;
use std::test::Fail;
use xif_base::{NoMemory, Params};
use xif_drive::{Delays, Listed, Never, Predictor, Script, ScriptLists};
use xif_image::{Image, Memory};
use xif_sim::{Run, Setup, one_cycle, simulate};

/// Two harts.
const PARAMS: Params = Params {
    num_rs: 2,
    id_width: 3,
    rfr_width: 32,
    rfw_width: 32,
    num_harts: 2,
    hartid_width: 1,
    dual_read: 0,
    dual_write: false,
    split: true,
    profile: 2,
};

/// addi x1, x0, 3; a field of x0 to x5; beq x5, x0, +12; two additions of x1; ecall
const BRANCH: [u32; 8] = [
    0x0030_0093,
    0x0000_128b,
    0x0002_8663,
    0x0000_800b,
    0x0000_800b,
    0x0000_0073,
    0,
    0,
];

/// A branch over one instruction, and two additions of x1 behind it.
const ADDITIONS: [u32; 8] = [
    0x0030_0093,
    0x0000_128b,
    0x0002_8663,
    0x0000_0013,
    0x0000_800b,
    0x0000_800b,
    0x0000_800b,
    0x0000_0073,
];

/// Predicts what no instruction of these programs does: that two are passed over.
#[derive(Clone, Copy, Debug)]
struct Wrong;

impl Predictor for Wrong {
    ghost answer = { λ predictor pc word. following (following pc) };

    ghost after = { λ predictor pc word actual. predictor };

    fn next(&self, pc: u32, _word: u32) -> u32 {
        pc.wrapping_add(4).wrapping_add(4)
    }

    fn learn(&mut self, _pc: u32, _word: u32, _actual: u32) {}
}

/// A unit that adds to an accumulator, and takes a field out of a word.
fn units(rt: &impl Abort, alloc: Global) -> Result<Set, NoMemory> {
    let mut set = Set::new(alloc);
    set.unit(1)?;
    for (matched, op) in [(0x0000_000b, Op::AccAdd), (0x0000_100b, Op::ExtractU)] {
        assert!(rt; set.len() > 0);
        set.entry(Entry {
            mask: 0x0000_707f,
            matched,
            op,
            acc: 0,
            low: 0,
            len: 32,
        })?;
    }
    Ok(set)
}

fn no_delays(alloc: Global) -> Result<Script, NoMemory> {
    let lists = ScriptLists {
        issue: Delays::from_slice(alloc, &[0])?,
        register: Delays::from_slice(alloc, &[0])?,
        operand: Delays::from_slice(alloc, &[0])?,
        result: Delays::from_slice(alloc, &[0])?,
        take: Delays::from_slice(alloc, &[0])?,
    };
    Script::new(alloc, &lists)
}

/// A memory with these words at address 0.
fn memory_of(alloc: Global, words: &[u32; 8]) -> Result<Memory, Fail> {
    let mut bytes = Vec::new(alloc);
    for word in words {
        bytes.extend_from_slice(&word.to_le_bytes())?;
    }
    let mut memory = Memory::new(alloc, 0, 32)?;
    memory.place(&Image::raw(alloc, &bytes, 0, 0, 32)?);
    Ok(memory)
}

fn setup_of(rt: &impl Abort, alloc: Global, words: &[u32; 8]) -> Result<Setup, Fail>
    ensures { IfOk result IsLawfulSetup }
{
    let set = units(rt, alloc)?;
    let script = no_delays(alloc)?;
    assert!(rt; PARAMS.check().is_ok() && set.check().is_ok() && script.check().is_ok());
    Ok(Setup {
        params: PARAMS,
        set,
        script,
        window: 8,
        budget: 100,
        memory: memory_of(alloc, words)?,
        entry: 0,
    })
}

/// The first accumulator of the first unit.
fn first(rt: &impl Abort, state: &UnitState) -> u64 {
    assert!(rt; state.len() > 0);
    let values = state.unit(0);
    assert!(rt; !values.is_empty());
    values[0]
}

/// Core and engine, and how many instructions retired.
#[derive(Drop)]
struct Pair {
    core: Core,
    engine: Engine,
    retired: u32,
}

fn new_pair(rt: &impl Abort, alloc: Global, words: &[u32; 8]) -> Result<Pair, Fail>
    ensures { IfOk result (λ pair. (pair.core.params ≡ pair.engine.params)
        × ((pair.engine.params.num_harts ≡ 2)
        × (IsCountedBy pair.engine.cycle pair.core
        × ((pair.engine.cycle ≡ 0) × (pair.retired ≡ 0))))) }
{
    let setup = setup_of(rt, alloc, words)?;
    let memory = memory_of(alloc, words)?;
    let core = Core::new(alloc, &PARAMS, &setup.script, 8, memory, 0)?;
    let engine = Engine::new(alloc, &PARAMS, &setup.set, &setup.script)?;
    Ok(Pair {
        core,
        engine,
        retired: 0,
    })
}

/// A cycle for hart 1.
fn step(pair: &mut Pair)
    requires params { (pair.old).core.params ≡ (pair.old).engine.params }
    requires harts { (pair.old).engine.params.num_harts ≡ 2 }
    requires counted { IsCountedBy (pair.old).engine.cycle (pair.old).core }
    requires cycle { (pair.old).engine.cycle < 2 ^ 31 }
    requires retired { (pair.old).retired ≤ (pair.old).engine.cycle }
    ensures params { (pair.new).core.params ≡ (pair.new).engine.params }
    ensures harts { (pair.new).engine.params.num_harts ≡ 2 }
    ensures counted { IsCountedBy (pair.new).engine.cycle (pair.new).core }
    ensures cycle { (pair.new).engine.cycle ≡ (pair.old).engine.cycle + 1 }
    ensures retired { (pair.new).retired ≤ (pair.new).engine.cycle }
{
    let (_, log) = one_cycle(&mut pair.core, &mut pair.engine, 1, &mut Never::new());
    if log.retired.is_some() {
        pair.retired += 1;
    }
}

/// The drain drops the branch, which has not executed, and the core goes on with it.
#[test]
fn a_core_goes_on_after_a_drain(rt: HostRuntime) -> Result<(), Fail> {
    let mut pair = new_pair(&rt, rt.alloc(), &BRANCH)?;
    step(&mut pair);
    step(&mut pair);
    step(&mut pair);
    step(&mut pair);
    pair.core.begin_drain();
    step(&mut pair);
    step(&mut pair);
    assert!(rt; pair.core.empty() && pair.retired == 2 && pair.core.pc() == 8);
    pair.core.resume();
    step(&mut pair);
    step(&mut pair);
    step(&mut pair);
    step(&mut pair);
    assert!(rt; matches!(pair.core.stopped(), Some(StopCause::Ecall)));
    assert!(rt; pair.retired == 3 && pair.core.pc() == 20);
    assert!(rt; pair.core.registers().get(1) == 3 && pair.core.memory().word(4) == Some(0x128b));
    assert!(rt; first(&rt, pair.engine.state(1)) == 0 && first(&rt, pair.engine.state(0)) == 0);
    Ok(())
}

/// What a run leaves does not depend on what is predicted.
#[test]
fn a_predictor_may_always_be_wrong(rt: HostRuntime) -> Result<(), Fail> {
    let mut text = String::new(rt.alloc());
    let setup = setup_of(&rt, rt.alloc(), &ADDITIONS)?;
    write_run(
        &rt,
        &simulate(rt.alloc(), &setup, &mut Never::new())?,
        &mut text,
    )?;
    write_run(&rt, &simulate(rt.alloc(), &setup, &mut Wrong)?, &mut text)?;
    let mut listed = Listed::new(rt.alloc(), &[2])?;
    write_run(&rt, &simulate(rt.alloc(), &setup, &mut listed)?, &mut text)?;
    assert_eq!(rt; text.as_str(), RUNS);
    Ok(())
}

fn write_run(rt: &impl Abort, run: &Run, text: &mut String) -> Result<(), Fail> {
    assert!(rt; run.buses.len() == run.logs.len() && run.retired.len() > 4);
    writeln!(
        text,
        "{:?} pc={} retired={} x1={} sum={} last={}",
        run.end,
        run.pc,
        run.retired.len(),
        run.registers.get(1),
        first(rt, &run.states),
        run.retired.get(4).pc
    )?;
    Ok(())
}

const RUNS: &str = "\
Stopped(Ecall) pc=28 retired=5 x1=3 sum=6 last=24
Stopped(Ecall) pc=28 retired=5 x1=3 sum=6 last=24
Stopped(Ecall) pc=28 retired=5 x1=3 sum=6 last=24
";
