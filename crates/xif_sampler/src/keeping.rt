//! The values of the signals that a sampler keeps.
ghost use Rattle.std.specs.Prelude.{◌≡◌, ◌≤◌, ◌<◌, ℕ, [], true, false, map, length, slice_index_or, OnOk, IfOk};
ghost use Rattle.xif_signals.specs.Quad.{known_quad};
ghost use Rattle.xif_sampler.specs.Samples.{quad_by};
ghost use Rattle.xif_sampler.specs.Steps.{source_at, is_of, bits_taken, AreWithin, readers_at, IsAmong, Covers, AreReaders, changed};

use crate::digits::quad_of;
use crate::source::{Readers, Source};
use std::alloc::{AllocError, Global};
use vcd_text::Digits;
use xif_signals::Quad;

/// For each code, up to the greatest that a signal takes bits of, the signals that do.
pub fn readers_of(alloc: Global, sources: &[Source; 29]) -> Result<Vec<Readers>, AllocError>
    ensures { IfOk result (λ readers. AreReaders sources.now readers.items) }
{
    let mut readers = Vec::new(alloc);
    for i in 0..29 {
        add_reader(&mut readers, sources[usize::from(i)], i)?;
    }
    Ok(readers)
}

/// Adds the signal of a number, which has this source.
fn add_reader(readers: &mut Vec<Readers>, source: Source, signal: u8) -> Result<(), AllocError>
    requires { signal < 29 }
    ensures added { OnOk result ((code : ℕ) → is_of code source ≡ true →
        IsAmong (readers_at readers.new.items code) signal) }
    ensures kept { (k i : ℕ) → IsAmong (readers_at readers.old.items k) i →
        IsAmong (readers_at readers.new.items k) i }
    ensures inside { ((k : ℕ) → (readers_at readers.old.items k).to ≤ 29) →
        (k : ℕ) → (readers_at readers.new.items k).to ≤ 29 }
{
    let Source::Bits { code, .. } = source else {
        return Ok(());
    };
    let at = code as usize;
    if readers.len() <= at {
        readers.resize(at + 1, Readers::NONE)?;
    }
    let Readers { from, to } = readers[at];
    readers[at] = Readers {
        from: from.min(signal),
        to: to.max(signal + 1),
    };
    Ok(())
}

/// The readers of a code.
pub fn find_readers(readers: &[Readers], code: u32) -> Readers
    ensures { result ≡ readers_at readers.now code }
{
    match readers.get(code as usize) {
        Some(found) => *found,
        None => Readers::NONE,
    }
}

/// The values before the first change.
pub fn first_quads(sources: &[Source; 29]) -> [Quad; 29]
    requires { AreWithin 64 sources.now }
    ensures { result ≡ map (quad_by []) sources.now }
{
    let mut quads = [Quad {
        value: 0,
        unknown: 0,
    }; 29];
    for (i, source) in sources.iter().enumerate() {
        quads[i] = first_quad(*source);
    }
    quads
}

fn first_quad(source: Source) -> Quad
    requires { bits_taken source ≤ 64 }
    ensures { result ≡ quad_by [] source }
{
    match source {
        Source::Fixed(value) => Quad { value, unknown: 0 },
        Source::Bits { low, width, .. } => quad_of(&Digits::new(), low, width),
    }
}

/// The values after a change of a code to these digits.
pub fn change_quads(
    quads: &mut [Quad; 29],
    sources: &[Source; 29],
    readers: Readers,
    code: u32,
    digits: &Digits,
)
    requires within { AreWithin 64 sources.now }
    requires covers { Covers readers sources.now code }
    requires inside { readers.to ≤ 29 }
    ensures count { length quads.new ≡ 29 }
    ensures each { (i : ℕ) → i < 29 → slice_index_or quads.new i (known_quad 0)
        ≡ changed code digits.now (source_at sources.now i)
        (slice_index_or quads.old i (known_quad 0)) }
{
    for i in usize::from(readers.from)..usize::from(readers.to) {
        quads[i] = changed_quad(sources[i], quads[i], code, digits);
    }
}

fn changed_quad(source: Source, quad: Quad, code: u32, digits: &Digits) -> Quad
    requires { bits_taken source ≤ 64 }
    ensures { result ≡ changed code digits.now source quad }
{
    match source {
        Source::Bits {
            code: read,
            low,
            width,
        } if code == read => quad_of(digits, low, width),
        _ => quad,
    }
}
