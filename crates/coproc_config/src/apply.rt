//! What an accepted instruction does: its result, and the accumulator that it changes.
ghost use Rattle.std.specs.Prelude.{◌≡◌, ◌<◌, ◌^◌, ℕ, IfSome, IsSome};
ghost use Rattle.coproc_config.specs.Table.{operation_line, write_flags, result_bits};
ghost use Rattle.coproc_config.specs.Check.{IsLawful};
ghost use Rattle.coproc_config.specs.Accept.{entry_at};
ghost use Rattle.coproc_config.specs.State.{accumulator_of, IsStateOf};
ghost use Rattle.coproc_config.specs.Apply.{applied, NamesAccumulator};

use crate::accept::Hit;
use crate::compute::Operands;
use crate::operation::Names;
use crate::set::Set;
use crate::state::UnitState;

impl Set {
    /// Applies the entry that a hit names: returns its result, and changes the one accumulator that
    /// the entry names. Halves of lanes that `register_read` doesn't name don't count. The result
    /// is 0 where nothing is written, has 32 bits where one register is, and has the even register
    /// of a pair in its low half (CV-X-IF 1.0.0, section "Result interface").
    pub fn apply(&self, hit: &Hit, state: &mut UnitState, operands: &Operands) -> u64
        requires lawful { IsLawful self.now }
        requires there { IsSome (entry_at self.now hit.now) }
        requires state { IsStateOf self.now state.old }
        ensures result { result ≡ (applied self.now hit.now state.old operands.now.lanes).result }
        ensures state { state.new ≡ (applied self.now hit.now state.old operands.now.lanes).state }
        ensures others { (u a : ℕ)
            → ¬ NamesAccumulator (entry_at self.now hit.now) hit.now.unit u a
            → accumulator_of state.new u a ≡ accumulator_of state.old u a }
        ensures bits { IfSome (entry_at self.now hit.now)
            (λ entry. result < 2 ^ result_bits (write_flags (operation_line entry.op).writes)) }
        ensures fits { IsStateOf self.now state.new }
    {
        let entry = self.get(usize::from(hit.unit)).get(usize::from(hit.entry));
        match entry.op.names() {
            Names::Accumulator => {
                let q = state.get(hit.unit, entry.acc);
                state.put(hit.unit, entry.acc, entry.accumulator(operands, q));
                entry.result(operands, q)
            }
            Names::Field | Names::Nothing => entry.result(operands, 0),
        }
    }
}
