//! The delays that are drawn from a seed.
ghost use Rattle.std.specs.Prelude.{◌≡◌, IfOk, OnOk};
ghost use Rattle.xif_drive.specs.Scripts.{IsLawful};
ghost use Rattle.generator.specs.Generated as spec;

use std::alloc::Global;
use xif_base::NoMemory;
use xif_drive::{Delays, Script, ScriptLists};

/// The script of a seed: four delays of 0 to 3 cycles for each list, list by list.
pub fn script(alloc: Global, seed: u32) -> Result<Script, NoMemory>
    ensures script { IfOk result (λ script. script ≡ spec.script_of seed) }
    ensures lawful { IfOk result IsLawful }
{
    let mut state = seed;
    let lists = ScriptLists {
        issue: draw_four(alloc, &mut state)?,
        register: draw_four(alloc, &mut state)?,
        operand: draw_four(alloc, &mut state)?,
        result: draw_four(alloc, &mut state)?,
        take: draw_four(alloc, &mut state)?,
    };
    Script::new(alloc, &lists)
}

/// The next four delays.
fn draw_four(alloc: Global, state: &mut u32) -> Result<Delays, NoMemory>
    ensures drawn { IfOk result (λ delays. delays ≡ spec.four_drawn state.old) }
    ensures state { state.new ≡ spec.fourth_state state.old }
{
    let delays = [draw(state), draw(state), draw(state), draw(state)];
    Delays::from_slice(alloc, &delays)
}

/// The next delay, in cycles.
fn draw(state: &mut u32) -> u16
    ensures drawn { result ≡ spec.drawn (spec.next_state state.old) }
    ensures state { state.new ≡ spec.next_state state.old }
{
    *state = state.wrapping_mul(1_664_525).wrapping_add(1_013_904_223);
    (*state / 65_536 % 4) as u16
}
