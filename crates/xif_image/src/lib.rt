//! Memory and images: bytes at addresses.
//!
//! The layer above sees a [`Memory`] as its base address and its bytes, loads and stores numbers of
//! 1, 2 or 4 bytes, fetches words, and places an [`Image`] in it, which it has made of the bytes of
//! a file as they are or of a text. What a memory is, where a byte lies and what a load, a store or
//! a fetch does is defined in `specs/Region.antt`; what an image is and what placing it does, in
//! `specs/Image.antt`; the grammar of a text in `specs/Grammar.antt`, and what its words say in
//! `specs/Text.antt`. laws.rt has what holds of them.
#![tactic(auto)]

mod image;
pub mod laws;
mod memory;
mod text;

pub use image::{ByteAt, Image, ImageFault};
pub use memory::{MemFault, Memory};
