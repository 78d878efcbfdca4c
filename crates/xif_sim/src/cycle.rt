//! A cycle of core and coprocessors on one bus.
ghost use Rattle.std.specs.Prelude.{◌≡◌, ◌≢◌, ◌<◌, ◌^◌, ◌∷◌, ℕ, List, None, IsTrue, map};
ghost use Rattle.xif_base.specs.Params.{IsInRange};
ghost use Rattle.xif_signals.specs.Bus.{FitsWidths};
ghost use Rattle.cycle_spec.specs.Choices.{choices};
ghost use Rattle.cycle_spec.specs.Core.{learnt};
ghost use Rattle.cycle_spec.specs.Counts.{IsCountedBy};
ghost use Rattle.cycle_spec.specs.Cycle as spec;
ghost use Rattle.cycle_spec.specs.Cycle.{Machines};
ghost use Rattle.cycle_spec.specs.Engine.{units_of};
ghost use Rattle.cycle_spec.specs.Run.{Setup};
ghost use Rattle.xif_session.specs.Legal.{IsLegalSession};
ghost use Rattle.trace_laws.specs.Sessions.{Session};
ghost use Rattle.hart_laws.specs.Harts.{HasServed, uses_of, after_result, AreTaken};

use coproc_engine::Engine;
use cycle_spec::CycleLog;
use spec_core::Core;
use xif_drive::Predictor;
use xif_signals::{Bus, CpuOut};

/// One cycle. The bus carries `hart` where the core, which knows of one hart, says 0. The predictor
/// is asked before it learns of what retires in the cycle.
///
/// Of core and engine it is asked that they have the same parameters, and that less than 2^63
/// cycles passed.
pub fn one_cycle<P: Predictor>(
    core: &mut Core,
    engine: &mut Engine,
    hart: u8,
    predictor: &mut P,
) -> (Bus, CycleLog)
    requires params { (core.old).params ≡ (engine.old).params }
    requires hart { hart < (engine.old).params.num_harts }
    requires counted { IsCountedBy (engine.old).cycle core.old }
    requires count { (engine.old).cycle < 2 ^ 63 }
    ensures bus { let m : Machines = record { core = core.old; engine = engine.old } in
        result.0 ≡ spec.bus_at m hart }
    ensures log { let m : Machines = record { core = core.old; engine = engine.old } in
        result.1 ≡ spec.log_at m (P.answer predictor.old) }
    ensures core { let m : Machines = record { core = core.old; engine = engine.old } in
        core.new ≡ spec.core_next m hart (P.answer predictor.old) }
    ensures engine { let m : Machines = record { core = core.old; engine = engine.old } in
        engine.new ≡ spec.engine_next m hart }
    ensures learnt { predictor.new ≡ learnt P.after (choices core.old).retire predictor.old }

    // What the core drives carries the hart.
    ensures issue_hart { IsTrue (result.0).issue_valid → (result.0).issue_hartid ≡ hart }
    ensures register_hart { IsTrue (result.0).register_valid → (result.0).register_hartid ≡ hart }
    ensures commit_hart { IsTrue (result.0).commit_valid → (result.0).commit_hartid ≡ hart }
    ensures fits { FitsWidths (core.old).params result.0 }
    ensures counted { IsCountedBy (engine.new).cycle core.new }

    // Each session goes on by the cycle, legal: also where harts take turns, and with the cycle
    // that stops the core. Where none stops it, core and engine are those of the longer session.
    ensures legal { (setup : Setup) (session : List Bus) → IsInRange setup.params →
        Session setup hart (record { core = core.old; engine = engine.old }) session →
        IsLegalSession setup.params (result.0 ∷ session) }
    ensures session { (setup : Setup) (session : List Bus) → (choices core.old).stop ≡ None →
        Session setup hart (record { core = core.old; engine = engine.old }) session →
        Session setup hart (record { core = core.new; engine = engine.new })
        (result.0 ∷ session) }

    // The engine serves cores of all harts. Of each other hart it keeps the accumulators, and the
    // uses but for their ends: a use whose result is taken in the cycle is finished. Where each
    // result of that hart that is ready was taken, its uses stay as they are.
    ensures served { HasServed engine.old → HasServed engine.new }
    ensures other_units { (other : ℕ) → other ≢ hart → HasServed engine.old →
        units_of engine.new other ≡ units_of engine.old other }
    ensures other_uses { (other : ℕ) → other ≢ hart → HasServed engine.old →
        uses_of engine.new other ≡ map (after_result result.0) (uses_of engine.old other) }
    ensures other_taken { (other : ℕ) → other ≢ hart → HasServed engine.old →
        AreTaken engine.old other → uses_of engine.new other ≡ uses_of engine.old other }
{
    let mut cpu = core.drive();
    for_hart(hart, &mut cpu);
    let cop = engine.drive(&cpu);
    let input = core.accepts(&cop);
    // The core asks for no hart, so that it may see the bus as it is.
    let bus = Bus::join(&cpu, &cop, &input);
    let log = core.clock(&bus, predictor);
    engine.clock(&cpu, &cop, &input);
    (bus, log)
}

fn for_hart(hart: u8, cpu: &mut CpuOut)
    ensures { cpu.new ≡ spec.for_hart hart cpu.old }
{
    cpu.issue_hartid = hart_if(cpu.issue_valid, hart);
    cpu.register_hartid = hart_if(cpu.register_valid, hart);
    cpu.commit_hartid = hart_if(cpu.commit_valid, hart);
}

fn hart_if(valid: bool, hart: u8) -> u8
    ensures { result ≡ spec.hart_if valid hart }
{
    if valid { hart } else { 0 }
}
