//! The law that the text of buses reads back.
ghost use Rattle.std.specs.Prelude.{◌<◌, ◌^◌, List, length, All};
ghost use Rattle.xif_base.specs.declared.params.Params.{Params};
ghost use Rattle.xif_base.specs.Params.{IsInRange};
ghost use Rattle.xif_signals.specs.declared.bus.Bus.{Bus};
ghost use Rattle.xif_signals.specs.Bus.{FitsWidths};
ghost use Rattle.vcd_text.specs.Writing.{ReadsBack};

/// The text of any buses whose fields fit has a reading, which has the variables of the signals,
/// and the times and changes of the cycles.
pub fn written_texts_read_back()
    ensures { (params : Params) (buses : List Bus) → IsInRange params →
        All (FitsWidths params) buses → length buses < 2 ^ 60 → ReadsBack params buses }
{}
