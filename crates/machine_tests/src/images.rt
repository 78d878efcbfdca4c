//! Memories and images: each public call on its happy path, and the places just outside. More texts
//! of images are in tests/images.txt.
ghost use Rattle.std.specs.Prelude.{◌≤◌, ◌+◌, ◌^◌};

use std::alloc::Global;
use std::process::Abort;
use std::test::Fail;
use xif_image::{Image, ImageFault, MemFault, Memory};

const LOADS: [(u32, u8, Result<u32, MemFault>); 14] = [
    (0, 4, Ok(0x00ab_cd77)),
    (4, 4, Ok(0x0102_0304)),
    (4, 1, Ok(4)),
    (7, 1, Ok(1)),
    (4, 2, Ok(0x0304)),
    (6, 2, Ok(0x0102)),
    (2, 4, Ok(0x0304_00ab)),
    (5, 2, Ok(0x0203)),
    (5, 4, Err(MemFault::Outside)),
    (7, 2, Err(MemFault::Outside)),
    (8, 1, Err(MemFault::Outside)),
    (8, 4, Err(MemFault::Outside)),
    (0xffff_fffc, 4, Err(MemFault::Outside)),
    (0xffff_fffe, 4, Err(MemFault::Outside)),
];

const STORES: [(u32, u8, u32, Result<(), MemFault>); 5] = [
    (4, 4, 0x0102_0304, Ok(())),
    (0, 1, 0xffff_ff77, Ok(())),
    (1, 2, 0xffff_abcd, Ok(())),
    (6, 4, 0x5555, Err(MemFault::Outside)),
    (8, 4, 0x5555, Err(MemFault::Outside)),
];

fn stores_are(
    rt: &impl Abort,
    memory: &mut Memory,
    stores: &[(u32, u8, u32, Result<(), MemFault>)],
) {
    for (at, width, value, want) in stores {
        assert!(rt; *width == 1 || *width == 2 || *width == 4);
        let addr = memory.base().wrapping_add(*at);
        assert_eq!(rt;
            memory.store(addr, *width, *value),
            *want,
            "{width} at {at}"
        );
    }
}

fn loads_are(rt: &impl Abort, memory: &Memory, loads: &[(u32, u8, Result<u32, MemFault>)]) {
    for (at, width, want) in loads {
        assert!(rt; *width == 1 || *width == 2 || *width == 4);
        let addr = memory.base().wrapping_add(*at);
        assert_eq!(rt; memory.load(addr, *width), *want, "{width} at {at}");
    }
}

#[test]
fn a_memory_is_little_endian_and_refuses_what_lies_outside(rt: HostRuntime) -> Result<(), Fail> {
    for base in [0, 0xffff_fff8] {
        let mut memory = Memory::new(rt.alloc(), base, 8)?;
        stores_are(&rt, &mut memory, &STORES);
        let copy = memory.copy(rt.alloc())?;
        stores_are(&rt, &mut memory, &[(4, 4, 0, Ok(()))]);
        loads_are(&rt, &copy, &LOADS);
        assert_eq!(rt; (copy.base(), copy.size()), (base, 8));
        assert_eq!(rt; copy.bytes(), [0x77, 0xcd, 0xab, 0, 4, 3, 2, 1].as_slice());
    }
    Ok(())
}

/// Where four bytes are placed in a memory from address 16 on, the memory's size, and the words at
/// addresses 16 and 20.
type Raw = (u32, u32, Result<(Option<u32>, Option<u32>), ImageFault>);

const RAW: [Raw; 5] = [
    (16, 4, Ok((Some(0x0403_0201), None))),
    (16, 5, Ok((Some(0x0403_0201), None))),
    (18, 8, Ok((Some(0x0201_0000), Some(0x0000_0403)))),
    (15, 8, Err(ImageFault::Outside { at: 0 })),
    (18, 5, Err(ImageFault::Outside { at: 3 })),
];

#[test]
fn raw_bytes_are_placed_in_a_row(rt: HostRuntime) -> Result<(), Fail> {
    for (load, size, want) in RAW {
        assert!(rt; size <= 8);
        let mut memory = Memory::new(rt.alloc(), 16, size)?;
        match Image::raw(rt.alloc(), &[1, 2, 3, 4], load, 16, size) {
            Ok(image) => {
                memory.place(&image);
                assert_eq!(rt;
                    Ok((memory.word(16), memory.word(20))),
                    want,
                    "{size} bytes"
                );
                assert_eq!(rt; memory.word(18), None);
            }
            Err(fault) => assert_eq!(rt; Err(fault), want, "{size} bytes"),
        }
    }
    assert!(rt; Image::raw(rt.alloc(), &[], 0, 16, 0).is_ok());
    Ok(())
}

/// A text, and the bytes that it places in a memory of 16 bytes.
type Text = (&'static str, Result<[u8; 16], ImageFault>);

// At base 0.
const TEXTS: [Text; 3] = [
    (
        "aB\x0b0F\x0c// 00 /*\r\n@00000003\t5c/**/",
        Ok([0xab, 0x0f, 0, 0x5c, 0, 0, 0, 0, 0, 0, 0, 0, 0, 0, 0, 0]),
    ),
    (
        "11 22 @0 33 @3 44",
        Ok([0x33, 0x22, 0, 0x44, 0, 0, 0, 0, 0, 0, 0, 0, 0, 0, 0, 0]),
    ),
    ("@é", Err(ImageFault::BadToken { at: 0 })),
];

// At base 0xfffffff0.
const HIGH_TEXTS: [Text; 3] = [
    (
        "@fffffffF 01",
        Ok([0, 0, 0, 0, 0, 0, 0, 0, 0, 0, 0, 0, 0, 0, 0, 1]),
    ),
    ("@fffffffF 01 02", Err(ImageFault::Outside { at: 13 })),
    ("@0 01", Err(ImageFault::Outside { at: 3 })),
];

fn texts_are(rt: &impl Abort, alloc: Global, base: u32, cases: &[Text]) -> Result<(), Fail>
    requires { base + 16 ≤ 2 ^ 32 }
{
    for (text, want) in cases {
        let mut memory = Memory::new(alloc, base, 16)?;
        match Image::text(alloc, text.as_bytes(), base, 16) {
            Ok(image) => {
                memory.place(&image);
                assert_eq!(rt;
                    memory.bytes(),
                    want.unwrap_or([0xff; 16]).as_slice(),
                    "{text}"
                );
            }
            Err(fault) => assert_eq!(rt; Err(fault), *want, "{text}"),
        }
    }
    Ok(())
}

#[test]
fn a_text_places_bytes_at_addresses(rt: HostRuntime) -> Result<(), Fail> {
    texts_are(&rt, rt.alloc(), 0, &TEXTS)?;
    texts_are(&rt, rt.alloc(), 0xffff_fff0, &HIGH_TEXTS)
}
