//! What a log tells, in the words of its reader: a law about the definitions. The function is only
//! for proofs and readers; it does nothing.
ghost use Rattle.std.specs.Prelude.{◌≡◌, ◌<◌, ◌^◌, List, length, map, All};
ghost use Rattle.cycle_spec.specs.declared.log.CycleLog.{CycleLog};
ghost use Rattle.run_log.specs.Log.{text_of};
ghost use Rattle.run_log.specs.Told.{IsLog, told_of};

/// Two logs of as many cycles that have the same text are the same, but for what isn't printed: the
/// address that follows a retired instruction, and the address of the next instruction to retire in
/// a cycle without a stop.
pub fn log_law()
    ensures { (one other : List CycleLog) → length one ≡ length other → length one < 2 ^ 64 →
        All IsLog one → All IsLog other → text_of one ≡ text_of other →
        map told_of one ≡ map told_of other }
{}
