//! A run whose cycles are counted.
ghost use Rattle.std.specs.Prelude.{◌≡◌, IfOk};
ghost use Rattle.cycle_spec.specs.Run.{run_of};
ghost use Rattle.xif_sim.specs.Setup.{IsLawfulSetup};
ghost use Rattle.xif_sim.specs.Simulating.{meaning};
ghost use Rattle.traced_run.specs.Left.{IsAtEnd, counts_of};

use crate::counts::Counts;
use std::alloc::Global;
use xif_base::NoMemory;
use xif_drive::Predictor;
use xif_sim::{Setup, Simulation};

/// A run that is over.
#[derive(Drop)]
pub struct Ran {
    /// It has the registers, the memory and the accumulators that the run leaves.
    pub simulation: Simulation,
    pub counts: Counts,
}

/// Runs a setup with a predictor to its end, and counts.
pub fn run_counted<P: Predictor>(
    alloc: Global,
    setup: &Setup,
    predictor: &mut P,
) -> Result<Ran, NoMemory>
    requires { IsLawfulSetup setup.now }
    ensures end { IfOk result (λ ran. IsAtEnd ran.simulation
        (run_of (meaning P.answer P.after) setup.now predictor.old)) }
    ensures counts { IfOk result (λ ran. ran.counts
        ≡ counts_of (run_of (meaning P.answer P.after) setup.now predictor.old)) }
{
    let mut simulation = Simulation::new(alloc, setup)?;
    let mut counts = Counts::none();
    while let Some((_, log)) = simulation.next_cycle(predictor) {
        counts = counts.with(&log);
    }
    Ok(Ran { simulation, counts })
}
