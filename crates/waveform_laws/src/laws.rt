//! The verdict on the text of buses.
ghost use Rattle.std.specs.Prelude.{◌≡◌, ◌<◌, ◌^◌, ◌↔◌, List, All, length, reverse, Ok};
ghost use Rattle.xif_base.specs.declared.params.Params.{Params};
ghost use Rattle.xif_base.specs.Params.{IsInRange};
ghost use Rattle.xif_signals.specs.declared.bus.Bus.{Bus};
ghost use Rattle.xif_signals.specs.Bus.{FitsWidths};
ghost use Rattle.vcd_text.specs.Written.{vcd_text_of};
ghost use Rattle.xif_sampler.specs.Places.{defaults};
ghost use Rattle.xif_session.specs.Legal.{IsLegalSession};
ghost use Rattle.waveform_judge.specs.Judged.{judged_of};
ghost use Rattle.waveform_laws.specs.Verdicts.{no_fault_in};

/// The text of buses, the first cycle first, whose fields fit their widths is judged by the default
/// map as a waveform of so many cycles without a fault if and only if every rule holds in each of
/// them.
pub fn legal_text_law()
    ensures { (params : Params) (buses : List Bus) → IsInRange params
        → All (FitsWidths params) buses → length buses < 2 ^ 60
        → (judged_of defaults params (vcd_text_of params buses) ≡ Ok (no_fault_in (length buses)))
        ↔ IsLegalSession params (reverse buses) }
{}
