//! The state of the core, and its calls but for the cycle's.
ghost use Rattle.std.specs.Prelude.{◌≡◌, ◌<◌, ◌≤◌, ◌^◌, IfOk};
ghost use Rattle.xif_base.specs.Params.{IsInRange};
ghost use Rattle.xif_drive.specs.Scripts.{IsLawful};
ghost use Rattle.cycle_spec.specs.State.{new_core};
ghost use Rattle.cycle_spec.specs.Core.{drain_begun, resumed};
ghost use Rattle.cycle_spec.specs.Run.{is_empty};

use cycle_spec::{Mode, NO_TRANSACTIONS, Transactions};
use flight_table::{FlightTable, Registers};
use inorder_machine::StopCause;
use std::alloc::Global;
use std::marker::Model;
use xif_base::{NoMemory, Params};
use xif_drive::Script;
use xif_image::Memory;

/// What the core keeps from cycle to cycle.
#[derive(Drop)]
pub struct CoreState {
    pub(crate) params: Params,
    pub(crate) script: Script,
    /// How many instructions may be in flight.
    pub(crate) window: u8,
    pub(crate) table: FlightTable,
    /// Registers and memory as the retired instructions left them.
    pub(crate) registers: Registers,
    pub(crate) memory: Memory,
    /// The address of the next instruction to retire.
    pub(crate) pc: u32,
    /// The address of the next instruction to be dispatched.
    pub(crate) ahead: u32,
    pub(crate) stopped: Option<StopCause>,
    pub(crate) mode: Mode,
    pub(crate) register_turns: Transactions,
    pub(crate) result_turns: Transactions,
}

impl Model for CoreState {
    ghost use Rattle.cycle_spec.specs.State.{Core as State};
    ghost use Rattle.spec_core.specs.Fits.{IsSetUp, IsTable, AreEntries};

    ghost Value = { State };

    ghost view = { λ c. record {
      params = c.params;
      script = c.script;
      window = c.window;
      flight = c.table.entries;
      next_seq = c.table.next_seq;
      registers = c.registers;
      memory = c.memory;
      pc = c.pc;
      ahead = c.ahead;
      stopped = c.stopped;
      mode = c.mode;
      register_turns = c.register_turns;
      result_turns = c.result_turns;
    } };

    ghost invariant = { λ c. IsSetUp c.params c.script c.window
        × (IsTable c.params c.window c.table × AreEntries c.params c.memory c.table.entries) };
}

impl CoreState {
    /// The state before the first cycle, with registers that are 0 and no instruction in flight, of
    /// which there may be `window` at most. `entry` is the address of the first instruction. It
    /// takes all memory that the core ever takes.
    pub fn new(
        alloc: Global,
        params: &Params,
        script: &Script,
        window: u8,
        memory: Memory,
        entry: u32,
    ) -> Result<CoreState, NoMemory>
        requires params { IsInRange params.now }
        requires script { IsLawful script.now }
        requires window { window ≤ 32 }
        requires ids { window ≤ 2 ^ params.now.id_width }
        ensures { IfOk result (λ state. state
            ≡ new_core params.now script.now window memory entry) }
    {
        Ok(CoreState {
            params: *params,
            script: script.copy(alloc)?,
            window,
            table: FlightTable::new(alloc, window, params)?,
            registers: Registers::new(),
            memory,
            pc: entry,
            ahead: entry,
            stopped: None,
            mode: Mode::Running,
            register_turns: NO_TRANSACTIONS,
            result_turns: NO_TRANSACTIONS,
        })
    }

    /// A drain begins with the next cycle: what no commit released is dropped, and the rest
    /// retires.
    pub fn begin_drain(&mut self)
        ensures { self.new ≡ drain_begun self.old }
    {
        self.mode = Mode::DrainBegins;
    }

    /// After a drain: the core runs on from the next instruction to retire.
    pub fn resume(&mut self)
        ensures { self.new ≡ resumed self.old }
    {
        self.mode = Mode::Running;
        self.ahead = self.pc;
    }

    /// Whether nothing is in flight.
    pub fn empty(&self) -> bool
        ensures { result ≡ is_empty self.now }
    {
        self.table.len() == 0
    }
}
