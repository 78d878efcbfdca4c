//! Images: bytes with their addresses, made of the bytes of a file or of a text.
ghost use Rattle.std.specs.Prelude.{◌≡◌, ◌≤◌, ◌<◌, ◌+◌, ◌^◌, ◌⊎◌, ℕ, length, IfOk, IfErr, OnOk, All, EachIndex};
ghost use Rattle.std.specs.Option.{SomeIff};
ghost use Rattle.xif_image.specs.Image.{bytes_from, IsWithin, IsFirstOutside, raw_image};
ghost use Rattle.xif_image.specs.Text.{text_image};

use crate::text::read;
use std::alloc::{AllocError, AllocFailed, Global};
use std::marker::Model;

/// A byte and its address.
#[derive(Clone, Copy, Debug, PartialEq, Eq)]
pub struct ByteAt {
    pub address: u32,
    pub value: u8,
}

/// Bytes with their addresses, for a memory of one base and size, in the order in which they are
/// placed there.
#[derive(Drop)]
pub struct Image {
    base: u32,
    size: u32,
    bytes: Vec<ByteAt>,
}

impl Model for Image {
    ghost use Rattle.std.specs.Prelude.{All};
    ghost use Rattle.xif_image.specs.Image.{Placement, IsWithin};

    ghost Value = { Placement };

    ghost view = { λ i. record { base = i.base; size = i.size; bytes = i.bytes.items } };

    ghost invariant = { λ i. All (λ b. IsWithin i.base i.size b.address) i.bytes.items };
}

/// Why an image can't be made. Of several faults of a text the first one is reported.
#[derive(Clone, Copy, Debug, PartialEq, Eq)]
pub enum ImageFault {
    /// The token at this offset of the text, in bytes, is neither a byte nor an address.
    BadToken { at: u64 },
    /// The byte at this index of the image, or the one whose token is at this offset of the text,
    /// has an address outside the memory; it is the first one.
    Outside { at: u64 },
    /// The text has no byte, and no other fault.
    Empty,
    /// Out of memory.
    NoMemory,
}

impl From<AllocError> for ImageFault {
    ghost use Rattle.std.specs.Prelude.{◌≡◌};
    ghost use Rattle.xif_image.specs.declared.image.ImageFault.TheVariants.{NoMemory};

    ghost from_gives = { λ _ e. e ≡ NoMemory };

    fn from(_: AllocError) -> Self {
        ImageFault::NoMemory
    }
}

impl<T: Drop> From<AllocFailed<T>> for ImageFault {
    ghost use Rattle.std.specs.Prelude.{◌≡◌};
    ghost use Rattle.xif_image.specs.declared.image.ImageFault.TheVariants.{NoMemory};

    ghost from_gives = { λ _ e. e ≡ NoMemory };

    fn from(_: AllocFailed<T>) -> Self {
        ImageFault::NoMemory
    }
}

impl Image {
    /// The bytes of a file as they are, the first one at the address `load`, for a memory of `size`
    /// bytes from `base` on. The only other fault than out of memory is a byte outside.
    pub fn raw(
        alloc: Global,
        bytes: &[u8],
        load: u32,
        base: u32,
        size: u32,
    ) -> Result<Image, ImageFault>
        requires { base + size ≤ 2 ^ 32 }
        ensures image { IfOk result (λ image.
            image ≡ record { base = base; size = size; bytes = bytes_from load bytes.now }) }
        ensures inside { OnOk result (EachIndex bytes.now (λ i. IsWithin base size (load + i))) }
        ensures outside { (at : ℕ) → result ≡ Err (ImageFault.Outside at)
            → IsFirstOutside base size load (length bytes.now) at }
        ensures fault { IfErr result (λ fault.
            (fault ≡ ImageFault.NoMemory) ⊎ ((at : ℕ) × (fault ≡ ImageFault.Outside at))) }

        // The same as one meaning of the bytes.
        ensures exact { IfOk result (λ image. raw_image load base size bytes.now ≡ Ok image) }
        ensures exact_fault { IfErr result (λ fault.
            (fault ≡ ImageFault.NoMemory) ⊎ (raw_image load base size bytes.now ≡ Err fault)) }
    {
        let mut placed = Vec::with_capacity(alloc, bytes.len())?;
        for (at, value) in bytes.iter().enumerate() {
            let Some(address) = address_of(load, at as u64, base, size) else {
                return Err(ImageFault::Outside { at: at as u64 });
            };
            placed.push(ByteAt {
                address,
                value: *value,
            })?;
        }
        Ok(Image {
            base,
            size,
            bytes: placed,
        })
    }

    /// The bytes of a text, for a memory of `size` bytes from `base` on. The text is that of
    /// `$readmemh` (IEEE 1364-2005, 17.2.9), of bytes alone. Its tokens are separated by white
    /// space and comments, which go from `//` to the end of the line or from `/*` to `*/`. Two hex
    /// digits are a byte. The first byte is at `base`, and each other one behind the one before it;
    /// but `@` with one to eight hex digits is the address of the next byte. Nothing else is a
    /// token: an open comment is a fault at its first byte.
    pub fn text(alloc: Global, bytes: &[u8], base: u32, size: u32) -> Result<Image, ImageFault>
        requires { base + size ≤ 2 ^ 32 }
        ensures image { IfOk result (λ image. text_image base size bytes.now ≡ Ok image) }
        ensures memory { IfOk result (λ image. (image.base ≡ base) × (image.size ≡ size)) }
        ensures fault { IfErr result (λ fault.
            (fault ≡ ImageFault.NoMemory) ⊎ (text_image base size bytes.now ≡ Err fault)) }
    {
        let placed = read(alloc, bytes, base, size)?;
        if placed.is_empty() {
            return Err(ImageFault::Empty);
        }
        Ok(Image {
            base,
            size,
            bytes: placed,
        })
    }

    /// The bytes with their addresses, in the order in which they are placed.
    pub(crate) fn bytes(&self) -> &[ByteAt]
        ensures bytes { result.now ≡ self.now.bytes }
        ensures within { All (λ b. IsWithin self.now.base self.now.size b.address) self.now.bytes }
    {
        self.bytes.as_slice()
    }
}

/// The address of byte `at` of an image at `load`, if the memory has it.
pub(crate) fn address_of(load: u32, at: u64, base: u32, size: u32) -> Option<u32>
    requires { base + size ≤ 2 ^ 32 }
    ensures { SomeIff result (IsWithin base size (load + at)) (load + at) }
{
    let first = u64::from(base);
    let end = first + u64::from(size);
    let address = u64::from(load).saturating_add(at);
    if first <= address && address < end {
        Some(address as u32)
    } else {
        None
    }
}
