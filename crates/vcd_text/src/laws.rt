//! What holds of all texts.
ghost use Rattle.std.specs.Prelude.{◌≡◌, ◌↔◌, ◌++◌, ℕ, List, Ok, Err};
ghost use Rattle.vcd_text.specs.declared.fault.VcdFault.{VcdFault};
ghost use Rattle.vcd_text.specs.Phrases.{PlacedPhrase, IsRowOf, FailsBehind};
ghost use Rattle.vcd_text.specs.Reading.{Reading, read_so_far, reading_of};
ghost use Rattle.vcd_text.specs.Sizes.{IsConsistent};

/// Texts are read by the grammar of IEEE 1364-2005, clause 18. A text has a reading if and only if
/// its tokens are a row of well-formed phrases, `$enddefinitions` among them, that say it; and it
/// has a fault if and only if that is the fault of what follows the well-formed phrases at its
/// front.
pub fn grammar_law()
    ensures reading { (text : List ℕ) (r : Reading) →
        (reading_of text ≡ Ok r) ↔ ((row : List PlacedPhrase) × IsRowOf text row r) }
    ensures fault { (text : List ℕ) (f : VcdFault) →
        (reading_of text ≡ Err f) ↔ ((row : List PlacedPhrase) × FailsBehind text row f) }
{}

/// If a prefix of a text has a fault, the text has that fault, whatever follows.
pub fn fault_law()
    ensures { (text more : List ℕ) (f : VcdFault) →
        (read_so_far text).state ≡ Err f → reading_of (text ++ more) ≡ Err f }
{}

/// In a reading the variables of one code are of one size, each change fits its code, and times
/// don't fall.
pub fn reading_law()
    ensures { (text : List ℕ) (r : Reading) → reading_of text ≡ Ok r → IsConsistent r }
{}
