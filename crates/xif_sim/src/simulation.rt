//! A run, told cycle by cycle.
ghost use Rattle.std.specs.Prelude.{◌≡◌, ◌<◌, ◌≤◌, ◌+◌, ◌*◌, ◌^◌, ◌↔◌, IfOk, IfSome, IsNone, IfNone, IsTrue, false};
ghost use Rattle.xif_signals.specs.Bus.{FitsWidths};
ghost use Rattle.cycle_spec.specs.Engine.{units_of};
ghost use Rattle.xif_drive.specs.Scripts.{IsLawful, largest_of};
ghost use Rattle.cycle_spec.specs.Run.{end_by};
ghost use Rattle.xif_sim.specs.Setup.{IsLawfulSetup};
ghost use Rattle.xif_sim.specs.Simulating as spec;
ghost use Rattle.xif_sim.specs.Simulating.{meaning, GoesOn};

use crate::cycle::one_cycle;
use crate::setup::Setup;
use coproc_config::UnitState;
use coproc_engine::Engine;
use cycle_spec::{CycleLog, End};
use flight_table::Registers;
use spec_core::Core;
use std::alloc::Global;
use std::marker::Model;
use xif_base::NoMemory;
use xif_drive::{Predictor, Script};
use xif_image::Memory;
use xif_signals::Bus;

/// A run, told cycle by cycle. The predictor stays with the caller, who gives it with each cycle.
#[derive(Drop)]
pub struct Simulation {
    core: Core,
    engine: Engine,
    is_draining: bool,
    /// How many cycles are left: of the budget, and then of the drain.
    left: u32,
    /// How many cycles a drain may take.
    drain_limit: u32,
}

impl Model for Simulation {
    ghost use Rattle.xif_sim.specs.Simulating.{Simulating};
    ghost use Rattle.xif_sim.specs.Fits.{IsGoing};

    ghost Value = { Simulating };

    ghost view = { λ s. record {
      machines = record { core = s.core; engine = s.engine };
      is_draining = s.is_draining;
      left = s.left;
      drain_limit = s.drain_limit;
    } };

    ghost invariant = { λ s. IsGoing s.core s.engine s.is_draining s.left s.drain_limit };
}

impl Simulation {
    /// Before the first cycle. It takes all memory that the simulation ever takes.
    pub fn new(alloc: Global, setup: &Setup) -> Result<Simulation, NoMemory>
        requires { IsLawfulSetup setup.now }
        ensures { IfOk result (λ simulation. simulation ≡ spec.begun setup.now) }
    {
        let memory = setup.memory.copy(alloc)?;
        Ok(Simulation {
            core: Core::new(
                alloc,
                &setup.params,
                &setup.script,
                setup.window,
                memory,
                setup.entry,
            )?,
            engine: Engine::new(alloc, &setup.params, &setup.set, &setup.script)?,
            is_draining: false,
            left: setup.budget,
            drain_limit: drain_limit(setup.window, &setup.script),
        })
    }

    /// Simulates a cycle: its bus and its log. `None` where the run is over: the machine stopped,
    /// or the budget of cycles is used up and nothing is in flight, or its drain has taken as many
    /// cycles as it may.
    pub fn next_cycle<P: Predictor>(&mut self, predictor: &mut P) -> Option<(Bus, CycleLog)>
        ensures over { IsNone result ↔ IsTrue (spec.is_over self.old) }
        ensures goes_on { IfSome result (GoesOn (meaning P.answer P.after) self.old predictor.old
            self.new predictor.new) }
        ensures stays { IfNone result ((self.new ≡ self.old) × (predictor.new ≡ predictor.old)) }
        ensures fits { IfSome result
            (λ told. FitsWidths (self.old).machines.core.params told.0) }
        ensures params { (self.new).machines.core.params ≡ (self.old).machines.core.params }
        ensures fewer { IfSome result
            (λ told. spec.cycles_left self.new < spec.cycles_left self.old) }
    {
        if self.is_over() {
            return None;
        }
        self.turn();
        self.left -= 1;
        Some(one_cycle(&mut self.core, &mut self.engine, 0, predictor))
    }

    /// How the run ends, if no cycle follows.
    pub fn end(&self) -> End
        ensures { result ≡ end_by (self.now).machines.core.stopped }
    {
        match self.core.stopped() {
            Some(cause) => End::Stopped(cause),
            None => End::Budget,
        }
    }

    /// The address of the next instruction to retire.
    pub fn pc(&self) -> u32
        ensures { result ≡ (self.now).machines.core.pc }
    {
        self.core.pc()
    }

    /// The registers as the retired instructions left them.
    pub fn registers(&self) -> &Registers
        ensures { result.now ≡ (self.now).machines.core.registers }
    {
        self.core.registers()
    }

    /// The memory as the retired instructions left it.
    pub fn memory(&self) -> &Memory
        ensures { result.now ≡ (self.now).machines.core.memory }
    {
        self.core.memory()
    }

    /// The accumulators of the units after the ready instructions.
    pub fn states(&self) -> &UnitState
        ensures { result.now ≡ units_of (self.now).machines.engine 0 }
    {
        self.engine.state(0)
    }

    fn is_over(&self) -> bool
        ensures { result ≡ spec.is_over self.now }
    {
        if self.is_draining {
            self.left == 0 || self.core.empty()
        } else {
            self.core.stopped().is_some() || (self.left == 0 && self.core.empty())
        }
    }

    /// Begins the drain, once the budget is used up.
    fn turn(&mut self)
        requires { spec.is_over self.old ≡ false }
        ensures turned { self.new ≡ spec.turned self.old }
        ensures some { 0 < (self.new).left }
    {
        if !self.is_draining && self.left == 0 {
            self.core.begin_drain();
            self.is_draining = true;
            self.left = self.drain_limit;
        }
    }
}

/// How many cycles a drain may take.
fn drain_limit(window: u8, script: &Script) -> u32
    requires { IsLawful script.now }
    ensures limit { result ≡ window * (8 * largest_of script.now + 40) }
    ensures small { result ≤ 2 ^ 28 }
{
    u32::from(window) * (8 * u32::from(script.largest()) + 40)
}
