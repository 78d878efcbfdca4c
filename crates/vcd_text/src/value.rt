//! The values of the signals in a cycle.
ghost use Rattle.std.specs.Prelude.{◌≡◌, ◌≢◌};
ghost use Rattle.xif_signals.specs.declared.signal.Signal.TheVariants.{Clk};
ghost use Rattle.xif_signals.specs.Bus.{sample_of};
ghost use Rattle.vcd_text.specs.Written.{value_in};

use std::marker::Model;
use xif_signals::{Bus, Signal};

/// The values of the signals but for the clock, in the order of the table, with 1 for the reset.
/// Contracts see them as the sample of the bus.
#[derive(Debug, Drop)]
pub(crate) struct Values {
    numbers: [u64; 28],
}

impl Model for Values {
    ghost use Rattle.std.specs.Prelude.{List, map};
    ghost use Rattle.xif_signals.specs.declared.sample.Quad.{Quad};
    ghost use Rattle.xif_signals.specs.Quad.{known_quad};

    ghost Value = { List Quad };

    ghost view = { λ v. map known_quad v.numbers };
}

impl Values {
    pub(crate) fn of(bus: &Bus) -> Values
        ensures { result ≡ sample_of bus.now }
    {
        Values {
            numbers: [
                1,
                bus.issue_valid as u64,
                bus.issue_ready as u64,
                bus.issue_hartid as u64,
                bus.issue_id as u64,
                bus.issue_instr as u64,
                bus.issue_accept as u64,
                bus.issue_writeback as u64,
                bus.issue_register_read as u64,
                bus.register_valid as u64,
                bus.register_ready as u64,
                bus.register_hartid as u64,
                bus.register_id as u64,
                bus.register_rs0,
                bus.register_rs1,
                bus.register_rs2,
                bus.register_rs_valid as u64,
                bus.commit_valid as u64,
                bus.commit_hartid as u64,
                bus.commit_id as u64,
                bus.commit_kill as u64,
                bus.result_valid as u64,
                bus.result_ready as u64,
                bus.result_hartid as u64,
                bus.result_id as u64,
                bus.result_data,
                bus.result_rd as u64,
                bus.result_we as u64,
            ],
        }
    }

    /// The value of a signal other than the clock.
    #[inline(always)]
    pub(crate) fn get(&self, signal: Signal) -> u64
        requires { signal ≢ Clk }
        ensures { result ≡ value_in self.now signal }
    {
        self.numbers[usize::from(signal.number()) - 1]
    }
}
