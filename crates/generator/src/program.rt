//! The program, in its memory.
ghost use Rattle.std.specs.Prelude.{◌≡◌, ◌<◌, ◌≤◌, ◌^◌, ◌-◌, ◌++◌, IfOk, OnOk, length};
ghost use Rattle.std.specs.List.{flat_map};
ghost use Rattle.std.specs.Int.{w32, to_le_bytes};
ghost use Rattle.generator.specs.Generated as spec;

use std::alloc::Global;
use xif_base::NoMemory;
use xif_image::{Image, ImageFault, Memory};

/// The size of the memory, in bytes.
const SIZE: u32 = 4_096;

/// The memory of a run: the program at address 0, where it starts, and zeros behind it.
pub fn memory(alloc: Global, seed: u32, count: u32) -> Result<Memory, NoMemory>
    ensures { IfOk result (λ m. m ≡ spec.memory_of seed count) }
{
    memory_of(alloc, &memory_bytes(alloc, seed, count)?)
}

/// The bytes of the memory.
fn memory_bytes(alloc: Global, seed: u32, count: u32) -> Result<Vec<u8>, NoMemory>
    ensures { IfOk result (λ bytes. bytes.items ≡ (spec.memory_of seed count).bytes) }
{
    let mut bytes = Vec::with_capacity(alloc, SIZE as usize)?;
    push_words(&mut bytes, &words(seed, count))?;
    bytes.resize(SIZE as usize, 0)?;
    Ok(bytes)
}

/// A memory of these bytes.
fn memory_of(alloc: Global, bytes: &[u8]) -> Result<Memory, NoMemory>
    requires { length bytes.now ≤ 2 ^ 32 - 1 }
    ensures { IfOk result (λ m. m ≡ record { base = 0; bytes = bytes.now }) }
{
    let size = bytes.len() as u32;
    let mut memory = Memory::new(alloc, 0, size)?;
    match Image::raw(alloc, bytes, 0, 0, size) {
        Ok(image) => memory.place(&image),
        Err(ImageFault::NoMemory) => return Err(NoMemory),
        Err(_) => unreachable!(),
    }
    Ok(memory)
}

fn push_words(bytes: &mut Vec<u8>, words: &[u32]) -> Result<(), NoMemory>
    ensures { OnOk result (bytes.new.items
        ≡ bytes.old.items ++ flat_map (to_le_bytes w32) words.now) }
{
    for word in words {
        bytes.extend_from_slice(&word.to_le_bytes())?;
    }
    Ok(())
}

/// The words of the program.
fn words(seed: u32, count: u32) -> [u32; 10]
    ensures { result ≡ spec.program_of seed count }
{
    [
        lui(1, count),
        addi(1, count),
        lui(2, seed),
        addi(2, seed),
        0x0001_000b,
        0xfff0_8093,
        0xfe00_9ce3,
        0x0000_218b,
        0x0000_620b,
        0x0000_0073,
    ]
}

/// LUI with the upper bits of a value.
fn lui(register: u32, value: u32) -> u32
    requires { register < 32 }
    ensures { result ≡ spec.lui_word register (spec.upper_bits value) }
{
    let upper = (u64::from(value) + 2_048) / 4_096 % 1_048_576;
    upper as u32 * 4_096 + register * 128 + 0x37
}

/// ADDI with the lower bits of a value.
fn addi(register: u32, value: u32) -> u32
    requires { register < 32 }
    ensures { result ≡ spec.addi_word register (spec.lower_bits value) }
{
    let lower = value % 4_096;
    lower * 1_048_576 + register * 32_768 + register * 128 + 0x13
}

/// How many cycles the run may take.
pub fn budget(count: u32) -> u32
    requires { count ≤ 20000 }
    ensures { result ≡ spec.budget_of count }
{
    64 * (3 * count + 8)
}
