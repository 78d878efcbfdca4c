//! Runs of the in-order machine, and what is printed of them.
ghost use Rattle.std.specs.Prelude.{◌≡◌, ◌≤◌, ◌^◌, ◌-◌, [], length, IfOk};
ghost use Rattle.std.specs.String.{string_bytes};
ghost use Rattle.xif_base.specs.Params.{IsInRange};
ghost use Rattle.coproc_config.specs.Check.{IsLawful};
ghost use Rattle.coproc_config.specs.State.{IsStateOf};
ghost use Rattle.inorder_machine.specs.Machine.{Extension};
ghost use Rattle.xif_job.specs.Ranges.{IsLawfulMemory};
ghost use Rattle.xif_cli.specs.InOrder.{raw_start, step_start, run_report};

use crate::report::report;
use coproc_config::{Set, UnitState};
use inorder_machine::Machine;
use std::alloc::Global;
use xif_base::{NoMemory, Params};
use xif_image::{Image, ImageFault, Memory};
use xif_job::Job;

/// The machine at the start of `raw`: the image at address 0, where the first instruction is. `set`
/// is empty.
pub(crate) fn raw_machine(alloc: Global, image: &[u8], set: &Set) -> Result<Machine, NoMemory>
    requires short { length image.now ≤ 2 ^ 32 - 1 }
    requires empty { set.now ≡ [] }
    ensures start { IfOk result (λ machine. machine ≡ raw_start image.now) }
    ensures units { IfOk result (λ machine. IsStateOf set.now machine.units) }
{
    let size = image.len() as u32;
    let mut memory = Memory::new(alloc, 0, size)?;
    match Image::raw(alloc, image, 0, 0, size) {
        Ok(image) => memory.place(&image),
        Err(ImageFault::NoMemory) => return Err(NoMemory),
        Err(_) => unreachable!(),
    }
    Ok(Machine::new(memory, 0, UnitState::new(alloc, set)?))
}

/// The machine at the start of `step`: the image in a memory of zeros, and the first instruction at
/// the job's entry.
pub(crate) fn step_machine(alloc: Global, job: &Job, image: &Image) -> Result<Machine, NoMemory>
    requires memory { IsLawfulMemory job.now.base job.now.size }
    requires image { (image.now.base ≡ job.now.base) × (image.now.size ≡ job.now.size) }
    ensures start { IfOk result (λ machine. machine ≡ step_start job.now image.now) }
    ensures units { IfOk result (λ machine. IsStateOf job.now.set machine.units) }
{
    let mut memory = Memory::new(alloc, job.base, job.size)?;
    memory.place(image);
    Ok(Machine::new(memory, job.entry, UnitState::new(alloc, &job.set)?))
}

/// The report of a run of at most `budget` retirements.
#[tactic(auto, unfolding(crate::specs::InOrder::run_report))]
pub(crate) fn run_report(
    alloc: Global,
    mut machine: Machine,
    set: &Set,
    params: &Params,
    budget: u64,
) -> Result<String, NoMemory>
    requires lawful { IsLawful set.now }
    requires params { IsInRange params.now }
    requires units { IsStateOf set.now machine.units }
    ensures { let x : Extension = record { set = set.now; params = params.now } in
        IfOk result (λ text. string_bytes text ≡ run_report x machine budget) }
{
    let before = Vec::from_slice(alloc, machine.memory().bytes())?;
    let run = machine.advance(set, params, budget);
    Ok(report(alloc, run.stop, run.retired, &machine, &before)?)
}
