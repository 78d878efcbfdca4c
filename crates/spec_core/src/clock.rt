//! The end of a cycle.
ghost use Rattle.std.specs.Prelude.{◌≡◌, ◌+◌, ℕ};
ghost use Rattle.std.specs.Option.{option_map, option_or};
ghost use Rattle.cycle_spec.specs.Choices as choose;
ghost use Rattle.cycle_spec.specs.Core as spec;
ghost use Rattle.cycle_spec.specs.Counts.{IsCountedBy};
ghost use Rattle.spec_core.specs.Fits.{CanGoOn};

use crate::dispatch::{add, ahead_after, ahead_behind, dispatch_line, entry_if, free_id_if};
use crate::retire::{learn, pc_behind, retired_line, store_back, write_back};
use crate::state::CoreState;
use crate::steps::settle;
use cycle_spec::{Choices, CycleLog, Mode, Presented, transactions_after};
use inorder_machine::StopCause;
use xif_drive::Predictor;
use xif_signals::Bus;

/// The result channel has one transaction at a time, and the core doesn't ask for whom it is.
pub(crate) const RESULT_OWNER: u64 = 0;

impl CoreState {
    /// The end of a cycle, in which the core does this. The predictor is asked before it learns.
    pub fn clock<P: Predictor>(
        &mut self,
        choices: &Choices,
        bus: &Bus,
        predictor: &mut P,
    ) -> CycleLog
        requires chosen { choices.now ≡ choose.choices self.old }
        requires counts { CanGoOn self.old }
        ensures log { result ≡ spec.core_log (P.answer predictor.old) self.old }
        ensures after { self.new ≡ spec.core_clock (P.answer predictor.old) self.old bus.now }
        ensures learnt { predictor.new
            ≡ spec.learnt P.after (choose.choices self.old).retire predictor.old }

        // No count is above that of the cycles.
        ensures counted { (cycle : ℕ) → IsCountedBy cycle self.old
            → IsCountedBy (cycle + 1) self.new }
    {
        let id = free_id_if(&self.table, choices.dispatch);
        settle(&mut self.table, choices, bus);
        write_back(&mut self.registers, &choices.retire);
        store_back(&mut self.memory, &choices.retire);
        let ahead = ahead_behind(choices.cut, self.ahead);
        let seq = self.table.next_seq();
        let new = entry_if(choices.dispatch, seq, id, ahead, &self.memory, predictor);
        add(&mut self.table, new);
        learn(predictor, &choices.retire);
        self.pc = pc_behind(&choices.retire, self.pc);
        self.ahead = ahead_after(&new, ahead);
        self.stopped = stop_or(choices.stop, self.stopped);
        self.mode = mode_after(self.mode);
        self.register_turns = transactions_after(
            self.register_turns,
            present_owner(&choices.present),
            bus.register_ready,
        );
        self.result_turns = transactions_after(
            self.result_turns,
            result_owner_on(bus),
            bus.result_ready,
        );
        CycleLog {
            retired: retired_line(&choices.retire),
            cut: choices.cut,
            dispatched: dispatch_line(&new),
            drained: choices.drain,
            stopped: choices.stop,
            pc: self.pc,
        }
    }
}

fn stop_or(stop: Option<StopCause>, stopped: Option<StopCause>) -> Option<StopCause>
    ensures { result ≡ option_or stop stopped }
{
    match stop {
        Some(cause) => Some(cause),
        None => stopped,
    }
}

fn mode_after(mode: Mode) -> Mode
    ensures { result ≡ spec.mode_after mode }
{
    match mode {
        Mode::Running => Mode::Running,
        Mode::DrainBegins | Mode::Draining => Mode::Draining,
    }
}

fn present_owner(present: &Option<Presented>) -> Option<u64>
    ensures { result ≡ spec.present_owner present.now }
{
    match present {
        Some(presented) => Some(presented.entry.seq),
        None => None,
    }
}

fn result_owner_on(bus: &Bus) -> Option<u64>
    ensures { result ≡ spec.result_owner_on bus.now }
{
    if bus.result_valid {
        Some(RESULT_OWNER)
    } else {
        None
    }
}
