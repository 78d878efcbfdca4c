//! Laws of memories and of the texts of images, each the contract of a call that does nothing.
ghost use Rattle.std.specs.Prelude.{◌≡◌, ◌≤◌, ◌<◌, ◌+◌, ◌%◌, ◌^◌, ◌⊎◌, ℕ, List, length, Ok, None};
ghost use Rattle.std.specs.List.{flat_map, AllByRecursion};
ghost use Rattle.xif_image.specs.Region.{Region, IsWidth, fault_of, loaded, stored};
ghost use Rattle.xif_image.specs.Image.{bytes_from};
ghost use Rattle.xif_image.specs.Text.{text_image};
ghost use Rattle.xif_image.specs.Grammar.{Part, spelled, AreParts, parts_image, hex_line};

/// What was stored is loaded again, cut to the width, and loads of other bytes return the same as
/// before.
pub fn a_store_is_loaded_again()
    ensures there { (m : Region) → (address width value : ℕ) → IsWidth width
        → fault_of m address width ≡ None
        → loaded (stored m address width value) address width ≡ Ok (value % 256 ^ width) }
    ensures elsewhere { (m : Region) → (address width value other count : ℕ) → IsWidth width
        → fault_of m address width ≡ None
        → ((other + count ≤ address) ⊎ (address + width ≤ other))
        → loaded (stored m address width value) other count ≡ loaded m other count }
{}

/// Each text has parts by the grammar, and what it says is what the words among its parts say, so
/// that a comment counts for as little as white space.
pub fn a_text_is_read_by_its_parts()
    ensures parts { (text : List ℕ)
        → (parts : List Part) × AreParts parts × (spelled parts ≡ text) }
    ensures read { (base size : ℕ) → (parts : List Part) → AreParts parts
        → text_image base size (spelled parts) ≡ parts_image base size parts }
{}

/// The text with a line of two hex digits for each byte is the image with these bytes in a row.
pub fn bytes_in_hex_are_an_image()
    ensures { (base size : ℕ) → (values : List ℕ) → AllByRecursion (λ v. v < 256) values
        → 0 < length values → length values ≤ size
        → text_image base size (flat_map hex_line values)
        ≡ Ok (record { base = base; size = size; bytes = bytes_from base values }) }
{}
