//! Identifier codes and their sizes.
ghost use Rattle.std.specs.Prelude.{◌≡◌, ◌<◌, ◌≤◌, ◌^◌, ◌++◌, [], ◌∷◌, None, length, OnOk, OnErr};
ghost use Rattle.vcd_text.specs.Codes.{code_from};

use crate::short_codes::{Places, find_place, make_room, note, place_of};
use indexmap::IndexMap;
use std::alloc::Global;
use std::marker::Model;
use xif_base::NoMemory;

/// The codes that are declared, each with its size in bits, by first declaration. The number of a
/// code is its place among them.
#[derive(Drop)]
pub struct Codes {
    sizes: IndexMap<Vec<u8>, u32>,
    /// What is known of the codes of one or two bytes: each change looks one up.
    places: Places,
}

impl Model for Codes {
    ghost use Rattle.std.specs.Prelude.{List, map, length, ◌≤◌, ◌^◌};
    ghost use Rattle.vcd_text.specs.Codes.{Code};
    ghost use Rattle.vcd_text.specs.ShortCodes.{HasShort};

    ghost Value = { List Code };

    ghost view = { λ c. map (λ e. record { text = e.0.items; size = e.1 }) c.sizes.entries };

    ghost invariant = { λ c. (length c.sizes.entries ≤ 2 ^ 32)
        × HasShort c.places.items
        (map (λ e. record { text = e.0.items; size = e.1 }) c.sizes.entries) };
}

impl Codes {
    /// No codes.
    pub fn new(alloc: Global) -> Codes
        ensures { result ≡ [] }
    {
        Codes {
            sizes: IndexMap::new(alloc),
            places: Vec::new(alloc),
        }
    }

    /// The number and the size in bits of a code, if it is declared.
    #[inline(always)]
    pub fn find(&self, text: &[u8]) -> Option<(u32, u32)>
        ensures { result ≡ code_from 0 text.now self.now }
    {
        match place_of(text) {
            Some(place) => find_place(&self.places, place),
            None => self.find_long(text),
        }
    }

    #[inline(never)]
    fn find_long(&self, text: &[u8]) -> Option<(u32, u32)>
        ensures { result ≡ code_from 0 text.now self.now }
    {
        match self.sizes.get_full(text) {
            Some((number, _, size)) => Some((number as u32, *size)),
            None => None,
        }
    }

    /// The number that a new code has.
    pub fn next(&self) -> u32
        requires { length self.now < 2 ^ 32 }
        ensures { result ≡ length self.now }
    {
        self.sizes.len() as u32
    }

    /// Adds a code that is not declared, with its size in bits.
    pub fn push(&mut self, alloc: Global, text: &[u8], size: u32) -> Result<(), NoMemory>
        requires room { length self.old < 2 ^ 32 }
        requires new { code_from 0 text.now self.old ≡ None }
        ensures ok { OnOk result
            (self.new ≡ self.old ++ record { text = text.now; size = size } ∷ []) }
        ensures err { OnErr result (self.new ≡ self.old) }
    {
        let place = place_of(text);
        make_room(&mut self.places, place)?;
        let number = self.sizes.len() as u32;
        self.sizes.insert(Vec::from_slice(alloc, text)?, size)?;
        note(&mut self.places, place, (number, size));
        Ok(())
    }
}
