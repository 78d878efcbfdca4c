//! What holds of the pace of every run.
ghost use Rattle.std.specs.Prelude.{◌≡◌, ◌≢◌, ◌<◌, ◌≤◌, ◌+◌, ◌*◌, ◌/◌, ◌||◌, ◌⊎◌, ℕ, true, None, [], length};
ghost use Rattle.inorder_machine.specs.declared.stop.StopCause.{StopCause};
ghost use Rattle.xif_drive.specs.Scripts.{largest_of};
ghost use Rattle.cycle_spec.specs.declared.choices.Mode.TheVariants.{Running};
ghost use Rattle.cycle_spec.specs.declared.log.End.TheVariants.{Stopped, Budget};
ghost use Rattle.cycle_spec.specs.Choices.{choices};
ghost use Rattle.cycle_spec.specs.Cycle.{Machines, cycle};
ghost use Rattle.cycle_spec.specs.Run.{Setup, Meaning, new_machines, is_stopped, is_empty, progress_of, run_of};
ghost use Rattle.cycle_paired.specs.Reached.{Reached};
ghost use Rattle.pace_laws.specs.Lawful.{IsLawful, pace_of};
ghost use Rattle.pace_laws.specs.Measure.{measure};

/// In every state that a run reaches, the measure of what the oldest instruction waits for is at
/// most seven delays and seven cycles. It falls in each cycle in which nothing retires and nothing
/// stops the machine, whatever the predictor answers, also where instructions are cut. In a drain
/// it falls, or fewer instructions are in flight.
pub fn measure_law()
    ensures bound { (setup : Setup) (m : Machines) → IsLawful setup →
        Reached 0 (new_machines setup) m →
        measure (largest_of setup.script) m ≤ 7 * largest_of setup.script + 7 }
    ensures falls { (setup : Setup) (m : Machines) (answer : ℕ → ℕ → ℕ) → IsLawful setup →
        Reached 0 (new_machines setup) m → m.core.mode ≡ Running →
        (choices m.core).stop ≡ None → (choices m.core).retire ≡ None →
        measure (largest_of setup.script) (cycle m 0 answer) < measure (largest_of setup.script) m }
    ensures drain { (setup : Setup) (m : Machines) (answer : ℕ → ℕ → ℕ) → IsLawful setup →
        Reached 0 (new_machines setup) m → m.core.mode ≢ Running → m.core.flight ≢ [] →
        (length (cycle m 0 answer).core.flight < length m.core.flight)
        ⊎ (measure (largest_of setup.script) (cycle m 0 answer)
        < measure (largest_of setup.script) m) }
{}

/// A drain is always empty in time: when a run ends the machine has stopped, or nothing is in
/// flight. So the bound that the definition of a run gives its drain never cuts one off.
pub fn drain_law<P>()
    ensures { (meaning : Meaning P) (setup : Setup) (predictor : P) → IsLawful setup →
        (is_stopped (progress_of meaning setup predictor).machines.core
        || is_empty (progress_of meaning setup predictor).machines.core) ≡ true }
{}

/// A run retires an instruction in each eight delays and forty cycles, for every predictor, set of
/// units and script: one that ends by its budget has retired that many at least, and one that stops
/// took no more cycles than that for each instruction that retired and the one that stopped it.
pub fn pace_law<P>()
    ensures budget { (meaning : Meaning P) (setup : Setup) (predictor : P) → IsLawful setup →
        (run_of meaning setup predictor).end ≡ Budget →
        setup.budget / pace_of setup ≤ length (run_of meaning setup predictor).retired }
    ensures stop { (meaning : Meaning P) (setup : Setup) (predictor : P) (cause : StopCause) →
        IsLawful setup → (run_of meaning setup predictor).end ≡ Stopped cause →
        length (run_of meaning setup predictor).buses
        ≤ (length (run_of meaning setup predictor).retired + 1) * pace_of setup }
{}
