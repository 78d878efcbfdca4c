//! Files and outputs: each public call on its happy path, and the calls that fail. And parameters,
//! flags, names and keys.
use std::fs;
use std::test::Fail;
use xif_base::{
    DiskShelf, Failed, Key, MemOut, MemShelf, Name, Out, ParamFault, Params, ReadFail, ReadFlags,
    Shelf, StdOut, WriteFail, WriteFlags, ones_below, put_all, read_all,
};

const LETTERS: &[u8] = b"abcdefg";

#[test]
fn a_shelf_in_memory_fails_by_number_and_moves_by_its_grain(rt: HostRuntime) -> Result<(), Fail> {
    let mut shelf = MemShelf::new(rt.alloc(), 3, &[1], &[], &[])?;
    shelf.insert("letters", LETTERS)?;
    assert_eq!(rt; shelf.bytes("letters"), Some(LETTERS));
    assert_eq!(rt; shelf.bytes("digits"), None);
    let calls: [(&str, u64, Result<&[u8], Failed>); 7] = [
        ("digits", 0, Err(Failed)),
        ("letters", 0, Ok(b"abc")),
        ("letters", 3, Err(Failed)),
        ("letters", 3, Ok(b"def")),
        ("letters", 6, Ok(b"g")),
        ("letters", 7, Ok(b"")),
        ("letters", 9, Ok(b"")),
    ];
    for (name, at, want) in calls {
        let mut buf = [b'.'; 5];
        let got = shelf.fetch(name, at, &mut buf);
        assert_eq!(rt; got, want.map(|bytes| bytes.len()), "{name} at {at}");
        let moved = want.unwrap_or(b"");
        assert!(rt; buf.starts_with(moved), "{name} at {at}");
        assert!(rt;
            buf[moved.len()..].iter().all(|byte| *byte == b'.'),
            "{name} at {at}"
        );
    }
    assert_eq!(rt; shelf.fetch("letters", 0, &mut []), Ok(0));
    Ok(())
}

#[test]
fn a_shelf_in_memory_is_written(rt: HostRuntime) -> Result<(), Fail> {
    let mut shelf = MemShelf::new(rt.alloc(), 3, &[], &[1], &[2])?;
    shelf.insert("digits", b"0")?;
    // A start if there is no piece, else an append; its result, and the file after it.
    let cases: [(Option<&[u8]>, Result<usize, WriteFail>, Option<&[u8]>); 7] = [
        (Some(b"ab"), Err(WriteFail::Failed), None),
        (None, Ok(0), Some(b"")),
        (Some(LETTERS), Ok(3), Some(b"abc")),
        (Some(b"de"), Ok(2), Some(b"abcde")),
        (Some(b"fg"), Err(WriteFail::Failed), Some(b"abcde")),
        (None, Err(WriteFail::Failed), Some(b"abcde")),
        (None, Ok(0), Some(b"")),
    ];
    for (piece, want, bytes) in cases {
        let got = match piece {
            Some(piece) => shelf.append("letters", piece),
            None => shelf.start("letters").map(|_| 0),
        };
        assert_eq!(rt; got, want, "{piece:?}");
        assert_eq!(rt; shelf.bytes("letters"), bytes, "{piece:?}");
        assert_eq!(rt; shelf.bytes("digits"), Some(b"0".as_slice()));
    }
    Ok(())
}

#[test]
fn a_file_is_read_whole_within_its_limit(rt: HostRuntime) -> Result<(), Fail> {
    let cases: [(&str, &[u64], u64, Result<&[u8], ReadFail>); 6] = [
        ("letters", &[], 7, Ok(LETTERS)),
        ("letters", &[], 6, Err(ReadFail::TooBig)),
        ("letters", &[1], 7, Err(ReadFail::ReadFault)),
        ("empty", &[], 0, Ok(b"")),
        ("letters", &[], 0, Err(ReadFail::TooBig)),
        ("digits", &[], 7, Err(ReadFail::ReadFault)),
    ];
    for (name, fetches, limit, want) in cases {
        let mut shelf = MemShelf::new(rt.alloc(), 3, fetches, &[], &[])?;
        shelf.insert("letters", LETTERS)?;
        shelf.insert("empty", b"")?;
        match read_all(rt.alloc(), &mut shelf, name, limit) {
            Ok(bytes) => assert_eq!(rt; Ok(bytes.as_slice()), want, "{name} within {limit}"),
            Err(fail) => assert_eq!(rt; Err(fail), want, "{name} within {limit}"),
        }
    }
    Ok(())
}

#[test]
fn all_bytes_are_put_or_a_prefix_of_them(rt: HostRuntime) -> Result<(), Fail> {
    let cases: [(&[u64], Result<(), WriteFail>, &[u8]); 4] = [
        (&[], Ok(()), LETTERS),
        (&[0], Err(WriteFail::Failed), b""),
        (&[2], Err(WriteFail::Failed), b"abcdef"),
        (&[3], Ok(()), LETTERS),
    ];
    for (puts, want, bytes) in cases {
        let mut out = MemOut::new(rt.alloc(), 3, puts)?;
        assert_eq!(rt; put_all(&mut out, LETTERS), want);
        assert_eq!(rt; out.bytes(), bytes);
    }
    Ok(())
}

#[test]
fn a_shelf_on_disk_empties_a_file_and_writes_it(rt: HostRuntime) -> Result<(), Fail> {
    let path = "/tmp/xif_tests_a_shelf_on_disk";
    let mut shelf = DiskShelf::new(&rt);
    for piece in [b"0123".as_slice(), LETTERS] {
        assert_eq!(rt; shelf.start(path), Ok(()));
        assert_eq!(rt; shelf.append(path, piece), Ok(piece.len()));
    }
    let mut buf = [b'.'; 8];
    let count = shelf.fetch(path, 3, &mut buf);
    fs::remove_file(&rt, path)?;
    assert_eq!(rt; count, Ok(4));
    assert_eq!(rt; &buf, b"defg....");
    Ok(())
}

#[test]
fn a_shelf_on_disk_misses_a_file(rt: HostRuntime) {
    let path = "/no such folder/letters";
    let mut shelf = DiskShelf::new(&rt);
    assert_eq!(rt; shelf.fetch(path, 0, &mut [b'.'; 2]), Err(Failed));
    assert_eq!(rt; shelf.fetch(path, 0, &mut []), Ok(0));
    assert_eq!(rt; shelf.start(path), Err(WriteFail::Failed));
    assert_eq!(rt; shelf.append(path, LETTERS), Err(WriteFail::Failed));
}

#[test]
fn the_standard_output_takes_a_short_piece(rt: HostRuntime) {
    let mut out = StdOut::new(&rt);
    assert_eq!(rt; out.put(b"short\n"), Ok(6));
}

const LEAST: Params = Params {
    num_rs: 2,
    id_width: 3,
    rfr_width: 32,
    rfw_width: 32,
    num_harts: 1,
    hartid_width: 1,
    dual_read: 0,
    dual_write: false,
    split: true,
    profile: 1,
};

const MOST: Params = Params {
    num_rs: 3,
    id_width: 12,
    rfr_width: 64,
    rfw_width: 64,
    num_harts: 4,
    hartid_width: 8,
    dual_read: 3,
    dual_write: true,
    split: false,
    profile: 1,
};

const WIDE: Params = Params {
    num_harts: 4,
    hartid_width: 1,
    dual_read: 3,
    ..LEAST
};

const CHECKS: [(Params, Result<(), ParamFault>); 18] = [
    (LEAST, Ok(())),
    (MOST, Ok(())),
    (Params { num_rs: 1, ..MOST }, Err(ParamFault::NumRs)),
    (Params { num_rs: 4, ..MOST }, Err(ParamFault::NumRs)),
    (
        Params {
            id_width: 2,
            ..MOST
        },
        Err(ParamFault::IdWidth),
    ),
    (
        Params {
            id_width: 13,
            ..MOST
        },
        Err(ParamFault::IdWidth),
    ),
    (
        Params {
            rfr_width: 33,
            ..LEAST
        },
        Err(ParamFault::RfrWidth),
    ),
    (
        Params {
            rfr_width: 32,
            ..MOST
        },
        Err(ParamFault::RfrWidth),
    ),
    (
        Params {
            rfw_width: 0,
            ..LEAST
        },
        Err(ParamFault::RfwWidth),
    ),
    (
        Params {
            rfw_width: 32,
            ..MOST
        },
        Err(ParamFault::RfwWidth),
    ),
    (
        Params {
            num_harts: 0,
            ..MOST
        },
        Err(ParamFault::NumHarts),
    ),
    (
        Params {
            num_harts: 5,
            ..MOST
        },
        Err(ParamFault::NumHarts),
    ),
    (
        Params {
            hartid_width: 0,
            ..MOST
        },
        Err(ParamFault::HartidWidth),
    ),
    (
        Params {
            hartid_width: 9,
            ..MOST
        },
        Err(ParamFault::HartidWidth),
    ),
    (
        Params {
            hartid_width: 1,
            ..MOST
        },
        Err(ParamFault::HartidWidth),
    ),
    (Params { num_rs: 2, ..MOST }, Err(ParamFault::DualRead)),
    // Three faults, of which the first is reported.
    (WIDE, Err(ParamFault::RfrWidth)),
    (
        Params {
            rfr_width: 64,
            ..WIDE
        },
        Err(ParamFault::HartidWidth),
    ),
];

#[test]
fn parameters_are_checked_in_the_order_of_their_fields(rt: HostRuntime) {
    for (params, want) in &CHECKS {
        assert_eq!(rt; params.check(), *want, "at {params:?}");
    }
}

#[test]
fn halves_of_lanes_have_bits(rt: HostRuntime) {
    let params = Params {
        dual_read: 2,
        ..MOST
    };
    for (lane, even, odd) in [(0, 0, Some(1)), (1, 2, Some(3)), (2, 4, None)] {
        assert_eq!(rt; ReadFlags::even_bit(&params, lane), even, "at {lane}");
        assert_eq!(rt; ReadFlags::odd_bit(&params, lane), odd, "at {lane}");
    }
}

#[test]
fn sets_of_flags_are_made_of_known_bits(rt: HostRuntime) {
    let cases = [
        (0, Some(0), Some(0)),
        (1, Some(1), Some(1)),
        (3, Some(3), Some(3)),
        (4, Some(4), None),
        (63, Some(63), None),
        (64, None, None),
        (255, None, None),
    ];
    for (bits, reads, writes) in cases {
        assert_eq!(rt;
            ReadFlags::from_bits(bits).map(|set| set.bits()),
            reads,
            "at {bits}"
        );
        assert_eq!(rt;
            WriteFlags::from_bits(bits).map(|set| set.bits()),
            writes,
            "at {bits}"
        );
    }
}

#[test]
fn sets_of_flags_contain_flags(rt: HostRuntime) {
    let reads = ReadFlags::BIT1 | ReadFlags::BIT5;
    for (flag, want) in [(ReadFlags::BIT5, true), (ReadFlags::BIT4, false)] {
        assert_eq!(rt; reads.contains(flag), want, "{flag:?}");
    }
    for (set, want) in [
        (WriteFlags::RD, false),
        (WriteFlags::RD | WriteFlags::NEXT, true),
    ] {
        assert_eq!(rt; set.contains(WriteFlags::NEXT), want, "{set:?}");
    }
}

#[test]
fn the_lowest_bits_are_ones(rt: HostRuntime) {
    for (count, want) in [
        (0, 0),
        (1, 1),
        (12, 0xfff),
        (63, u64::MAX >> 1),
        (64, u64::MAX),
    ] {
        assert_eq!(rt; ones_below(count), want, "at {count}");
    }
}

#[test]
fn names_and_keys(rt: HostRuntime) -> Result<(), Fail> {
    assert_eq!(rt; Name::of(rt.alloc(), "job.toml")?.as_str(), "job.toml");
    let key = Key { hart: 0, id: 1 };
    for (other, want) in [(key, true), (Key { hart: 1, id: 1 }, false)] {
        assert_eq!(rt; key == other, want, "{other:?}");
    }
    Ok(())
}
