//! The core.
ghost use Rattle.std.specs.Prelude.{◌≡◌, ◌<◌, ◌≤◌, ◌+◌, ◌^◌, ℕ, IfOk};
ghost use Rattle.xif_base.specs.Params.{IsInRange};
ghost use Rattle.xif_drive.specs.Scripts.{IsLawful};
ghost use Rattle.cycle_spec.specs.State.{new_core};
ghost use Rattle.cycle_spec.specs.Choices as choose;
ghost use Rattle.cycle_spec.specs.Core as spec;
ghost use Rattle.cycle_spec.specs.Counts.{IsCountedBy};
ghost use Rattle.cycle_spec.specs.Run.{is_empty};
ghost use Rattle.spec_core.specs.Fits.{CanGoOn};
ghost use Rattle.spec_core.specs.Drives.{FitsCpuOut};

use crate::drive::cpu_out;
use crate::state::CoreState;
use cycle_spec::{Choices, CycleLog};
use flight_table::Registers;
use inorder_machine::StopCause;
use std::alloc::Global;
use std::marker::Model;
use xif_base::{NoMemory, Params};
use xif_drive::{Predictor, Script};
use xif_image::Memory;
use xif_signals::{Bus, CopOut, CpuIn, CpuOut};

/// The speculative core. It has one hart, 0.
#[derive(Drop)]
pub struct Core {
    state: CoreState,
    /// What it does in the next cycle.
    planned: Choices,
}

impl Model for Core {
    ghost use Rattle.cycle_spec.specs.State.{Core as State};
    ghost use Rattle.spec_core.specs.Drives.{AreChosen};

    ghost Value = { State };

    ghost view = { λ c. c.state };

    ghost invariant = { λ c. AreChosen c.state c.planned };
}

impl Core {
    /// A core before the first cycle, with registers that are 0 and no instruction in flight, of
    /// which there may be `window` at most. `entry` is the address of the first instruction. It
    /// takes all memory that the core ever takes.
    pub fn new(
        alloc: Global,
        params: &Params,
        script: &Script,
        window: u8,
        memory: Memory,
        entry: u32,
    ) -> Result<Core, NoMemory>
        requires params { IsInRange params.now }
        requires script { IsLawful script.now }
        requires window { window ≤ 32 }
        requires ids { window ≤ 2 ^ params.now.id_width }
        ensures { IfOk result (λ core. core
            ≡ new_core params.now script.now window memory entry) }
    {
        let state = CoreState::new(alloc, params, script, window, memory, entry)?;
        let planned = state.choices();
        Ok(Core { state, planned })
    }

    /// What the core drives in a cycle, but for the result channel.
    pub fn drive(&self) -> CpuOut
        ensures value { result ≡ spec.core_drive self.now }
        ensures fits { FitsCpuOut self.now.params result }
    {
        cpu_out(&self.planned)
    }

    /// Whether the core takes the result that the coprocessors offer: once the transaction has
    /// waited for its delay (CV-X-IF 1.0.0, "Result interface").
    pub fn accepts(&self, cop: &CopOut) -> CpuIn
        ensures { result ≡ spec.core_accepts self.now cop.now }
    {
        self.state.accepts(cop)
    }

    /// The end of a cycle. The predictor is asked before it learns.
    pub fn clock<P: Predictor>(&mut self, bus: &Bus, predictor: &mut P) -> CycleLog
        requires { CanGoOn self.old }
        ensures log { result ≡ spec.core_log (P.answer predictor.old) self.old }
        ensures after { self.new ≡ spec.core_clock (P.answer predictor.old) self.old bus.now }
        ensures learnt { predictor.new
            ≡ spec.learnt P.after (choose.choices self.old).retire predictor.old }

        // No count is above that of the cycles.
        ensures counted { (cycle : ℕ) → IsCountedBy cycle self.old
            → IsCountedBy (cycle + 1) self.new }
    {
        let log = self.state.clock(&self.planned, bus, predictor);
        self.state.choose(&mut self.planned);
        log
    }

    /// A drain begins with the next cycle: what no commit released is dropped, and the rest
    /// retires.
    pub fn begin_drain(&mut self)
        ensures { self.new ≡ spec.drain_begun self.old }
    {
        self.state.begin_drain();
        self.planned = self.state.choices();
    }

    /// After a drain: the core runs on from the next instruction to retire.
    pub fn resume(&mut self)
        ensures { self.new ≡ spec.resumed self.old }
    {
        self.state.resume();
        self.planned = self.state.choices();
    }

    /// Why the machine stopped, if it did.
    pub fn stopped(&self) -> Option<StopCause>
        ensures { result ≡ self.now.stopped }
    {
        self.state.stopped
    }

    /// Whether nothing is in flight.
    pub fn empty(&self) -> bool
        ensures { result ≡ is_empty self.now }
    {
        self.state.empty()
    }

    /// The address of the next instruction to retire.
    pub fn pc(&self) -> u32
        ensures { result ≡ self.now.pc }
    {
        self.state.pc
    }

    /// The registers as the retired instructions left them.
    pub fn registers(&self) -> &Registers
        ensures { result.now ≡ self.now.registers }
    {
        &self.state.registers
    }

    /// The memory as the retired instructions left it.
    pub fn memory(&self) -> &Memory
        ensures { result.now ≡ self.now.memory }
    {
        &self.state.memory
    }
}
