//! What retirement changes beside the instructions in flight.
ghost use Rattle.std.specs.Prelude.{◌≡◌, IfSome};
ghost use Rattle.std.specs.Option.{option_map};
ghost use Rattle.inorder_machine.specs.Machine as machine;
ghost use Rattle.inorder_machine.specs.Lines.{IsStore};
ghost use Rattle.cycle_spec.specs.Core as spec;
ghost use Rattle.spec_core.specs.Fits.{IsKeptWrite};

use crate::control::is_control;
use cycle_spec::Entry;
use flight_table::Registers;
use inorder_machine::{Retire, Store, Write};
use xif_drive::Predictor;
use xif_image::Memory;

/// The registers behind the instruction that retires.
pub(crate) fn write_back(registers: &mut Registers, retire: &Option<Entry>)
    requires { IfSome retire.now (λ e. IsKeptWrite e.write) }
    ensures { registers.new ≡ spec.registers_behind retire.now registers.old }
{
    if let Some(entry) = retire {
        write(registers, entry.write);
    }
}

fn write(registers: &mut Registers, write: Write)
    requires { IsKeptWrite write }
    ensures { registers.new ≡ machine.registers_after registers.old write }
{
    match write {
        Write::None => {}
        Write::One { rd, value } => registers.set(rd, value),
        Write::Pair { rd, low, high } => {
            registers.set(rd, low);
            registers.set(rd + 1, high);
        }
    }
}

/// The memory behind the instruction that retires.
pub(crate) fn store_back(memory: &mut Memory, retire: &Option<Entry>)
    requires { IfSome retire.now (λ e. IsStore memory.old e.store) }
    ensures { memory.new ≡ spec.memory_behind retire.now memory.old }
{
    if let Some(entry) = retire {
        store(memory, entry.store);
    }
}

fn store(memory: &mut Memory, store: Option<Store>)
    requires { IsStore memory.old store }
    ensures { memory.new ≡ machine.memory_after memory.old store }
{
    if let Some(store) = store {
        // There is no fault: what retires has a store that can be done.
        let _done = memory.store(store.addr, store.width, store.value);
    }
}

/// The address of the next instruction to retire.
pub(crate) fn pc_behind(retire: &Option<Entry>, pc: u32) -> u32
    ensures { result ≡ spec.pc_behind retire.now pc }
{
    match retire {
        Some(entry) => entry.next,
        None => pc,
    }
}

/// A predictor learns where a control transfer went that retires.
pub(crate) fn learn<P: Predictor>(predictor: &mut P, retire: &Option<Entry>)
    ensures { predictor.new ≡ spec.learnt P.after retire.now predictor.old }
{
    if let Some(entry) = retire {
        if is_control(entry.kind) {
            predictor.learn(entry.pc, entry.word, entry.next);
        }
    }
}

/// The line of the instruction that retires.
pub(crate) fn retired_line(retire: &Option<Entry>) -> Option<Retire>
    ensures { result ≡ option_map spec.line_of retire.now }
{
    let entry = retire.as_ref()?;
    Some(Retire {
        pc: entry.pc,
        word: entry.word,
        next: entry.next,
        write: entry.write,
        store: entry.store,
    })
}
