//! A table of the codes of one or two bytes, by place. Most codes are so short.
ghost use Rattle.std.specs.Prelude.{◌≡◌, ◌<◌, ◌^◌, ℕ, length, IfSome, OnOk};
ghost use Rattle.vcd_text.specs.ShortCodes.{place_of, IsOfBytes, found_at, with_found};

use std::alloc::AllocError;

/// The number and the size in bits of the code at each place.
pub type Places = Vec<Option<(u32, u32)>>;

/// The place of a code, if it is short.
pub fn place_of(text: &[u8]) -> Option<usize>
    ensures place { result ≡ place_of text.now }
    ensures bytes { IsOfBytes text.now }
    ensures small { IfSome result (λ place. place < 2 ^ 17) }
{
    match text {
        [first] => Some(usize::from(*first)),
        [first, second] => Some(256 + 256 * usize::from(*second) + usize::from(*first)),
        _ => None,
    }
}

/// What is known of the code at a place.
pub fn find_place(places: &[Option<(u32, u32)>], place: usize) -> Option<(u32, u32)>
    ensures { result ≡ found_at places.now place }
{
    match places.get(place) {
        Some(found) => *found,
        None => None,
    }
}

/// Makes room for what is known of the code at a place, if there is one.
pub fn make_room(places: &mut Places, place: Option<usize>) -> Result<(), AllocError>
    requires { IfSome place (λ p. p < 2 ^ 17) }
    ensures same { (k : ℕ) → found_at places.new.items k ≡ found_at places.old.items k }
    ensures room { OnOk result (IfSome place (λ p. p < length places.new.items)) }
{
    let Some(place) = place else {
        return Ok(());
    };
    if places.len() <= place {
        places.resize(place + 1, None)?;
    }
    Ok(())
}

/// Notes what is known of the code at a place, if there is one.
pub fn note(places: &mut Places, place: Option<usize>, found: (u32, u32))
    requires { IfSome place (λ p. p < length places.old.items) }
    ensures { (k : ℕ) → found_at places.new.items k
        ≡ with_found place found places.old.items k }
{
    if let Some(place) = place {
        places[place] = Some(found);
    }
}
