//! What holds of every core: its entries are in order, and the id of the next one is free.
ghost use Rattle.std.specs.Prelude.{◌<◌, ◌≤◌, ℕ, List, length};
ghost use Rattle.xif_base.specs.declared.params.Params.{Params};
ghost use Rattle.xif_image.specs.Region.{Region};
ghost use Rattle.xif_drive.specs.Scripts.{Lists};
ghost use Rattle.xif_signals.specs.declared.bus.Bus.{Bus};
ghost use Rattle.cycle_spec.specs.declared.entry.Entry.{Entry};
ghost use Rattle.cycle_spec.specs.Flight.{free_id};
ghost use Rattle.cycle_spec.specs.State.{Core, new_core};
ghost use Rattle.cycle_spec.specs.Core.{core_clock, drain_begun, resumed};
ghost use Rattle.cycle_lists.specs.Lists.{Each};
ghost use Rattle.cycle_lists.specs.Order.{InOrder, IsFree};

/// The numbers of the instructions in flight rise, and the ids of unknown words differ: of a new
/// core, after each cycle, whatever the bus has and the predictor answers, and in a drain.
pub fn order_law()
    ensures new { (params : Params) (script : Lists) (window : ℕ) (memory : Region) (entry : ℕ) →
        InOrder (new_core params script window memory entry) }
    ensures cycle { (answer : ℕ → ℕ → ℕ) (w : Core) (b : Bus) →
        InOrder w → InOrder (core_clock answer w b) }
    ensures drain { (w : Core) → InOrder w → InOrder (drain_begun w) }
    ensures resumed { (w : Core) → InOrder w → InOrder (resumed w) }
{}

/// No entry holds the id of the next dispatch, and where there is room in a window, the id is below
/// the window.
pub fn free_id_law()
    ensures free { (es : List Entry) → Each (IsFree (free_id es)) es }
    ensures below { (es : List Entry) (window : ℕ) → length es < window → free_id es < window }
{}
