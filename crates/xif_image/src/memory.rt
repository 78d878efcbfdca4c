//! Memory: bytes from a base address on, with loads, stores and fetches.
ghost use Rattle.std.specs.Prelude.{◌≡◌, ◌≤◌, ◌<◌, ◌+◌, ◌-◌, ◌*◌, ◌%◌, ◌==◌, ◌^◌, ℕ, List, length, replicate, IfOk, OnOk, OnErr, All};
ghost use Rattle.xif_image.specs.Region.{IsWidth, fault_of, unless, loaded, word_at, overwritten, stored};
ghost use Rattle.xif_image.specs.Image.{placed, bytes_from, bytes_after, IsWithin};

use crate::image::{ByteAt, Image};
use std::alloc::Global;
use std::marker::Model;
use xif_base::NoMemory;

/// The bytes from a base address on. Addresses are those of bytes, and numbers are little-endian.
#[derive(Drop)]
pub struct Memory {
    base: u32,
    bytes: Vec<u8>,
}

impl Model for Memory {
    ghost use Rattle.std.specs.Prelude.{◌≤◌, ◌<◌, ◌+◌, ◌^◌, vec_len};
    ghost use Rattle.xif_image.specs.Region.{Region};

    ghost Value = { Region };

    ghost view = { λ m. record { base = m.base; bytes = m.bytes.items } };

    ghost invariant = { λ m. (vec_len m.bytes < 2 ^ 32) × (m.base + vec_len m.bytes ≤ 2 ^ 32) };
}

/// Why a load or a store can't be done.
#[derive(Clone, Copy, Debug, PartialEq, Eq)]
pub enum MemFault {
    /// One of the bytes lies outside the memory.
    Outside,
}

impl Memory {
    /// So many zero bytes, `size`, from the address `base` on.
    pub fn new(alloc: Global, base: u32, size: u32) -> Result<Memory, NoMemory>
        requires { base + size ≤ 2 ^ 32 }
        ensures { IfOk result (λ m. m ≡ record { base = base; bytes = replicate size 0 }) }
    {
        Ok(Memory {
            base,
            bytes: vec![in alloc; 0; size as usize]?,
        })
    }

    /// A copy, which does not change with this memory.
    pub fn copy(&self, alloc: Global) -> Result<Memory, NoMemory>
        ensures { IfOk result (λ m. m ≡ self.now) }
    {
        Ok(Memory {
            base: self.base,
            bytes: Vec::from_slice(alloc, self.bytes.as_slice())?,
        })
    }

    /// The address of the first byte.
    pub fn base(&self) -> u32
        ensures { result ≡ self.now.base }
    {
        self.base
    }

    /// The number of bytes.
    pub fn size(&self) -> u32
        ensures { result ≡ length self.now.bytes }
    {
        self.bytes.len() as u32
    }

    /// The bytes, from the base on.
    pub fn bytes(&self) -> &[u8]
        ensures bytes { result.now ≡ self.now.bytes }
        ensures room { self.now.base + length self.now.bytes ≤ 2 ^ 32 }
    {
        self.bytes.as_slice()
    }

    /// The number of `width` bytes at an address, little-endian and extended by 0 (RISC-V
    /// Unprivileged ISA, section 2.6). The address need not be a multiple of the width. A load is
    /// refused if and only if one of the bytes lies outside, where addresses don't wrap around.
    pub fn load(&self, addr: u32, width: u8) -> Result<u32, MemFault>
        requires { IsWidth width }
        ensures loaded { result ≡ loaded self.now addr width }
        ensures fits { IfOk result (λ value. value < 2 ^ (8 * width)) }
    {
        let start = self.start(addr, width)?;
        let bytes = &self.bytes.as_slice()[start..];
        Ok(match width {
            1 => u32::from(bytes[0]),
            2 => u32::from(u16::from_le_bytes([bytes[0], bytes[1]])),
            _ => u32::from_le_bytes([bytes[0], bytes[1], bytes[2], bytes[3]]),
        })
    }

    /// Puts the lowest `width` bytes of a value at an address. It is refused as a load is.
    pub fn store(&mut self, addr: u32, width: u8, value: u32) -> Result<(), MemFault>
        requires { IsWidth width }
        ensures fault { result ≡ unless (fault_of self.old addr width) tt }
        ensures stored { OnOk result (self.new ≡ stored self.old addr width value) }
        ensures refused { OnErr result (self.new ≡ self.old) }
    {
        let start = self.start(addr, width)?;
        let bytes = value.to_le_bytes();
        // With a length that is known here, each copy is one move.
        match width {
            1 => overwrite(self.bytes.as_mut_slice(), start, &bytes[..1]),
            2 => overwrite(self.bytes.as_mut_slice(), start, &bytes[..2]),
            _ => overwrite(self.bytes.as_mut_slice(), start, &bytes),
        }
        Ok(())
    }

    /// The 32-bit word at an address, as a fetch reads it: `None` if and only if the address is no
    /// multiple of 4 or one of its bytes lies outside.
    pub fn word(&self, addr: u32) -> Option<u32>
        ensures { result ≡ word_at self.now addr }
    {
        if addr % 4 != 0 {
            return None;
        }
        self.load(addr, 4).ok()
    }

    /// The index of the byte at an address, if so many can be moved from there on.
    fn start(&self, addr: u32, width: u8) -> Result<usize, MemFault>
        requires { IsWidth width }
        ensures { result ≡ unless (fault_of self.now addr width) (addr - self.now.base) }
    {
        if addr < self.base {
            return Err(MemFault::Outside);
        }
        let start = (addr - self.base) as usize;
        if start + usize::from(width) > self.bytes.len() {
            return Err(MemFault::Outside);
        }
        Ok(start)
    }

    /// Writes each byte of an image to its address, a later one in place of an earlier.
    pub fn place(&mut self, image: &Image)
        requires base { image.now.base ≡ self.old.base }
        requires size { image.now.size ≡ length self.old.bytes }
        ensures placed { self.new ≡ placed self.old image.now }

        // Bytes in a row from the base on that are as many as the memory has are then its bytes.
        ensures whole { (bytes : List ℕ) → image.now.bytes ≡ bytes_from self.old.base bytes
            → length bytes ≡ length self.old.bytes → self.new.bytes ≡ bytes }
    {
        self.write(image);
    }

    fn write(&mut self, image: &Image)
        requires base { image.now.base ≡ self.old.base }
        requires size { image.now.size ≡ length self.old.bytes }
        ensures { self.new ≡ placed self.old image.now }
    {
        write_bytes(self.bytes.as_mut_slice(), self.base, image.bytes());
    }
}

fn write_bytes(bytes: &mut [u8], base: u32, image: &[ByteAt])
    requires { All (λ b. IsWithin base (length bytes.old) b.address) image.now }
    ensures { bytes.new ≡ bytes_after base bytes.old image.now }
{
    for byte in image {
        bytes[(byte.address - base) as usize] = byte.value;
    }
}

fn overwrite(bytes: &mut [u8], at: usize, others: &[u8])
    requires { at + length others.now ≤ length bytes.old }
    ensures { bytes.new ≡ overwritten bytes.old at others.now }
{
    bytes[at..at + others.len()].copy_from_slice(others);
}
