//! The command `gen SEED COUNT`.
ghost use Rattle.std.specs.Prelude.{◌≡◌, ◌≤◌, ◌++◌, IfErr, IfOk, OnOk};
ghost use Rattle.std.specs.String.{string_bytes};
ghost use Rattle.cycle_spec.specs.Engine.{units_of};
ghost use Rattle.cycle_spec.specs.Run.{end_by};
ghost use Rattle.inorder_machine.specs.Machine.{register_in};
ghost use Rattle.run_log.specs.Growth.{Appends};
ghost use Rattle.coproc_config.specs.State.{accumulator_of};
ghost use Rattle.xif_sim.specs.Setup.{IsLawfulSetup};
ghost use Rattle.xif_cli.specs.Outcome.{prints};
ghost use Rattle.xif_cli.specs.Simulated.{stop_of};
ghost use Rattle.xif_cli.specs.Summary.{counts_text, end_text, values_line, generated_setup, generated_summary};

use crate::answer::{Answer, End};
use crate::report::{end_word, stop_of};
use crate::status::Status;
use coproc_config::UnitState;
use inorder_machine::StopCause;
use run_log::{HexDouble, HexWord};
use std::alloc::{AllocError, Global};
use traced_run::{Counts, Ran, run_counted};
use xif_base::NoMemory;
use xif_drive::Never;
use xif_sim::Setup;

/// How many instructions may be in flight.
const WINDOW: u8 = 8;

/// The summary of the run of a generated program, whose delays are drawn from a seed.
pub(crate) fn gen_answer(alloc: Global, seed: u32, count: u32) -> Result<Answer, Status>
    requires { count ≤ 20000 }
    ensures answer { IfOk result (λ answer.
        answer ≡ prints End.Done (generated_summary seed count)) }
    ensures no_memory { IfErr result (λ status. status ≡ Status.NoMemory) }
{
    let text = summary(alloc, seed, count)?;
    Ok(Answer {
        end: End::Done,
        text,
    })
}

// What is printed of the run.
fn summary(alloc: Global, seed: u32, count: u32) -> Result<String, NoMemory>
    requires { count ≤ 20000 }
    ensures { IfOk result (λ text. string_bytes text ≡ generated_summary seed count) }
{
    let setup = setup(alloc, seed, count)?;
    let ran = run_counted(alloc, &setup, &mut Never::new())?;
    summary_of(alloc, &ran)
}

// What the run is made of.
fn setup(alloc: Global, seed: u32, count: u32) -> Result<Setup, NoMemory>
    requires { count ≤ 20000 }
    ensures setup { IfOk result (λ setup. setup ≡ generated_setup seed count) }
    ensures lawful { IfOk result IsLawfulSetup }
{
    Ok(Setup {
        params: generator::PARAMS,
        set: generator::set(alloc)?,
        script: generator::script(alloc, seed)?,
        window: WINDOW,
        budget: generator::budget(count),
        memory: generator::memory(alloc, seed, count)?,
        entry: 0,
    })
}

// The two lines of a run.
fn summary_of(alloc: Global, ran: &Ran) -> Result<String, NoMemory>
    ensures { let core = (ran.now).simulation.machines.core in
        IfOk result (λ text. string_bytes text
        ≡ counts_text (ran.now).counts.retired (ran.now).counts.cuts (ran.now).counts.cycles
        ++ end_text (stop_of (end_by core.stopped)) core.pc
        ++ values_line (register_in core.registers 3) (register_in core.registers 4)
        (accumulator_of (units_of (ran.now).simulation.machines.engine 0) 0 0)) }
{
    let simulation = &ran.simulation;
    let mut text = String::new(alloc);
    push_counts(&mut text, ran.counts)?;
    push_end(&mut text, stop_of(simulation.end()), simulation.pc())?;
    let registers = simulation.registers();
    let accumulator = first_accumulator(simulation.states());
    push_values(&mut text, registers.get(3), registers.get(4), accumulator)?;
    Ok(text)
}

fn push_counts(text: &mut String, counts: Counts) -> Result<(), AllocError>
    ensures { OnOk result (Appends text.old text.new
        (counts_text counts.retired counts.cuts counts.cycles)) }
{
    let (retired, cuts, cycles) = (counts.retired, counts.cuts, counts.cycles);
    write!(text, "gen retired={retired} cuts={cuts} cycles={cycles}")
}

fn push_end(text: &mut String, stop: Option<StopCause>, pc: u32) -> Result<(), AllocError>
    ensures { OnOk result (Appends text.old text.new (end_text stop pc)) }
{
    let word = end_word(stop);
    writeln!(text, " end={word} pc={}", HexWord(pc))
}

fn push_values(text: &mut String, x3: u32, x4: u32, accumulator: u64) -> Result<(), AllocError>
    ensures { OnOk result (Appends text.old text.new (values_line x3 x4 accumulator)) }
{
    write!(text, "x3={} x4={}", HexWord(x3), HexWord(x4))?;
    writeln!(text, " u0.a0={}", HexDouble(accumulator))
}

// Accumulator 0 of unit 0, or 0 if there is none.
fn first_accumulator(states: &UnitState) -> u64
    ensures { result ≡ accumulator_of states.now 0 0 }
{
    if states.len() == 0 {
        return 0;
    }
    states.unit(0).first().copied().unwrap_or(0)
}
