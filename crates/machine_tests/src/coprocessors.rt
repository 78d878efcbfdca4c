//! Each operation, and the public calls on coprocessor units, on values from an independent model.
ghost use Rattle.coproc_config.specs.State.{IsStateOf};

use coproc_config::{Entry, Op, Operands, Set, SetCause, SetFault, UnitState};
use std::alloc::Global;
use std::process::Abort;
use std::test::Fail;
use xif_base::{NoMemory, Params};

/// An entry that takes each word whose bits under the mask are 0.
fn entry(op: Op) -> Entry {
    Entry {
        mask: 0x7f,
        matched: 0,
        op,
        acc: 0,
        low: 0,
        len: 32,
    }
}

/// The same, with what it names.
fn naming(op: Op, acc: u8, low: u8, len: u8) -> Entry {
    Entry {
        acc,
        low,
        len,
        ..entry(op)
    }
}

fn params(num_rs: u8, dual_read: u8, dual_write: bool) -> Params {
    Params {
        num_rs,
        id_width: 3,
        rfr_width: 64,
        rfw_width: 64,
        num_harts: 1,
        hartid_width: 1,
        dual_read,
        dual_write,
        split: true,
        profile: 1,
    }
}

/// One unit with two accumulators and seven entries.
fn seven_entries(rt: &impl Abort, alloc: Global) -> Result<Set, NoMemory> {
    let mut set = Set::new(alloc);
    set.unit(2)?;
    for (matched, op, low, len) in [
        (0x0000_000b, Op::AccAdd, 0, 32),
        (0x0000_100b, Op::ExtractU, 4, 8),
        (0x0000_200b, Op::AccReadLow, 0, 32),
        (0x0000_300b, Op::PairMul, 0, 32),
        (0x0000_400b, Op::PairSum, 0, 32),
        (0x0000_500b, Op::Insert, 0, 8),
        (0x0000_600b, Op::AccReadHigh, 0, 32),
    ] {
        assert!(rt; set.len() > 0);
        set.entry(Entry {
            mask: 0x0000_707f,
            matched,
            op,
            acc: 0,
            low,
            len,
        })?;
    }
    Ok(set)
}

/// An operation, `low`, `len`, the accumulator, the lanes; the result and the new accumulator.
type Case = (Op, u8, u8, u64, [u64; 3], u64, u64);

#[rattlefmt::skip]
const FIELDS: [Case; 17] = [
    (Op::ExtractU, 0, 32, 5, [0x8000_0000, 0, 0], 0x8000_0000, 5),
    (Op::ExtractS, 0, 32, 5, [0x8000_0000, 0, 0], 0x8000_0000, 5),
    (Op::ExtractU, 0, 32, 5, [0xdead_beef_7fff_ffff, 0, 0], 0x7fff_ffff, 5),
    (Op::ExtractS, 0, 32, 5, [0xdead_beef_7fff_ffff, 0, 0], 0x7fff_ffff, 5),
    (Op::ExtractU, 31, 1, 5, [0xdead_beef_8000_f7f1, 0, 0], 1, 5),
    (Op::ExtractS, 31, 1, 5, [0xdead_beef_8000_f7f1, 0, 0], 0xffff_ffff, 5),
    (Op::ExtractU, 4, 8, 5, [0xdead_beef_8000_f7f1, 0, 0], 0x7f, 5),
    (Op::ExtractS, 4, 8, 5, [0xdead_beef_8000_f7f1, 0, 0], 0x7f, 5),
    (Op::ExtractU, 16, 16, 5, [0xdead_beef_8000_f7f1, 0, 0], 0x8000, 5),
    (Op::ExtractS, 16, 16, 5, [0xdead_beef_8000_f7f1, 0, 0], 0xffff_8000, 5),
    (Op::Insert, 0, 32, 5, [0xdead_beef_1234_5678, 0xdead_beef_90ab_cdef, 0], 0x1234_5678, 5),
    (Op::Insert, 31, 1, 5, [0xdead_beef_1234_5678, 0xdead_beef_90ab_cdef, 0], 0x10ab_cdef, 5),
    (Op::Insert, 4, 8, 5, [0xdead_beef_1234_5678, 0xdead_beef_90ab_cdef, 0], 0x90ab_c78f, 5),
    (Op::Insert, 16, 16, 5, [0xdead_beef_1234_5678, 0xdead_beef_90ab_cdef, 0], 0x5678_cdef, 5),
    (Op::Insert, 0, 8, 5, [0xdead_beef_1234_5678, 0xdead_beef_90ab_cdef, 0], 0x90ab_cd78, 5),
    (Op::Insert, 4, 8, 5, [0, 0xffff_ffff, 0], 0xffff_f00f, 5),
    (Op::Insert, 31, 1, 5, [1, 0x7fff_ffff, 0], 0xffff_ffff, 5),
];

#[rattlefmt::skip]
const BITS: [Case; 17] = [
    (Op::Reverse, 0, 32, 5, [0, 0, 0], 0, 5),
    (Op::Ones, 0, 32, 5, [0, 0, 0], 0, 5),
    (Op::Reverse, 0, 32, 5, [1, 0, 0], 0x8000_0000, 5),
    (Op::Ones, 0, 32, 5, [1, 0, 0], 1, 5),
    (Op::Reverse, 0, 32, 5, [0x7fff_ffff, 0, 0], 0xffff_fffe, 5),
    (Op::Ones, 0, 32, 5, [0x7fff_ffff, 0, 0], 0x1f, 5),
    (Op::Reverse, 0, 32, 5, [0x8000_0000, 0, 0], 1, 5),
    (Op::Ones, 0, 32, 5, [0x8000_0000, 0, 0], 1, 5),
    (Op::Reverse, 0, 32, 5, [0xffff_ffff, 0, 0], 0xffff_ffff, 5),
    (Op::Ones, 0, 32, 5, [0xffff_ffff, 0, 0], 0x20, 5),
    (Op::Reverse, 0, 32, 5, [0xdead_beef_1234_5678, 0, 0], 0x1e6a_2c48, 5),
    (Op::Ones, 0, 32, 5, [0xdead_beef_1234_5678, 0, 0], 0xd, 5),
    (Op::Merge, 0, 32, 5, [0, 0xffff_ffff, 0x7fff_ffff], 0x8000_0000, 5),
    (Op::Merge, 0, 32, 5, [0xffff_ffff, 0, 0x8000_0000], 0x8000_0000, 5),
    (Op::Merge, 0, 32, 5, [0xdead_beef_1234_5678, 0xdead_beef_9abc_def0, 0xdead_beef_0ff0_f00f], 0x923c_5ef8, 5),
    (Op::Merge, 0, 32, 5, [1, 2, 0], 2, 5),
    (Op::Merge, 0, 32, 5, [1, 2, 0xffff_ffff], 1, 5),
];

#[rattlefmt::skip]
const ACCUMULATORS: [Case; 21] = [
    (Op::AccClear, 0, 32, 0, [7, 0, 0], 0, 0),
    (Op::AccReadLow, 0, 32, 0, [7, 0, 0], 0, 0),
    (Op::AccReadHigh, 0, 32, 0, [7, 0, 0], 0, 0),
    (Op::AccSwap, 0, 32, 0, [0xdead_beef_8000_0001, 0, 0], 0, 0x8000_0001),
    (Op::PairRead, 0, 32, 0, [7, 0, 0], 0, 0),
    (Op::AccAdd, 0, 32, 0, [1, 0, 0], 0, 1),
    (Op::AccAdd, 0, 32, 0, [0xdead_beef_ffff_ffff, 0, 0], 0, 0xffff_ffff),
    (Op::AccClear, 0, 32, 0xffff_ffff_ffff_ffff, [7, 0, 0], 0, 0),
    (Op::AccReadLow, 0, 32, 0xffff_ffff_ffff_ffff, [7, 0, 0], 0xffff_ffff, 0xffff_ffff_ffff_ffff),
    (Op::AccReadHigh, 0, 32, 0xffff_ffff_ffff_ffff, [7, 0, 0], 0xffff_ffff, 0xffff_ffff_ffff_ffff),
    (Op::AccSwap, 0, 32, 0xffff_ffff_ffff_ffff, [0xdead_beef_8000_0001, 0, 0], 0xffff_ffff, 0x8000_0001),
    (Op::PairRead, 0, 32, 0xffff_ffff_ffff_ffff, [7, 0, 0], 0xffff_ffff_ffff_ffff, 0xffff_ffff_ffff_ffff),
    (Op::AccAdd, 0, 32, 0xffff_ffff_ffff_ffff, [1, 0, 0], 0, 0),
    (Op::AccAdd, 0, 32, 0xffff_ffff_ffff_ffff, [0xdead_beef_ffff_ffff, 0, 0], 0, 0xffff_fffe),
    (Op::AccClear, 0, 32, 0xffff_ffff_7fff_ffff, [7, 0, 0], 0, 0),
    (Op::AccReadLow, 0, 32, 0xffff_ffff_7fff_ffff, [7, 0, 0], 0x7fff_ffff, 0xffff_ffff_7fff_ffff),
    (Op::AccReadHigh, 0, 32, 0xffff_ffff_7fff_ffff, [7, 0, 0], 0xffff_ffff, 0xffff_ffff_7fff_ffff),
    (Op::AccSwap, 0, 32, 0xffff_ffff_7fff_ffff, [0xdead_beef_8000_0001, 0, 0], 0x7fff_ffff, 0x8000_0001),
    (Op::PairRead, 0, 32, 0xffff_ffff_7fff_ffff, [7, 0, 0], 0xffff_ffff_7fff_ffff, 0xffff_ffff_7fff_ffff),
    (Op::AccAdd, 0, 32, 0xffff_ffff_7fff_ffff, [1, 0, 0], 0, 0xffff_ffff_8000_0000),
    (Op::AccAdd, 0, 32, 0xffff_ffff_7fff_ffff, [0xdead_beef_ffff_ffff, 0, 0], 0, 0x7fff_fffe),
];

#[rattlefmt::skip]
const PRODUCTS: [Case; 18] = [
    (Op::AccMac, 0, 32, 0, [0x7fff_ffff, 0x7fff_ffff, 0], 0, 0x3fff_ffff_0000_0001),
    (Op::AccMac, 0, 32, 0, [0x8000_0000, 0x8000_0000, 0], 0, 0x4000_0000_0000_0000),
    (Op::AccMac, 0, 32, 0, [0x8000_0000, 0x7fff_ffff, 0], 0, 0xc000_0000_8000_0000),
    (Op::AccMac, 0, 32, 0, [0xffff_ffff, 0xffff_ffff, 0], 0, 1),
    (Op::AccMac, 0, 32, 0, [0xffff_ffff, 1, 0], 0, 0xffff_ffff_ffff_ffff),
    (Op::AccMac, 0, 32, 0, [0xdead_beef_ffff_ffff, 0xdead_beef_8000_0000, 0], 0, 0x8000_0000),
    (Op::AccMac, 0, 32, 1, [0x7fff_ffff, 0x7fff_ffff, 0], 0, 0x3fff_ffff_0000_0002),
    (Op::AccMac, 0, 32, 1, [0x8000_0000, 0x8000_0000, 0], 0, 0x4000_0000_0000_0001),
    (Op::AccMac, 0, 32, 1, [0x8000_0000, 0x7fff_ffff, 0], 0, 0xc000_0000_8000_0001),
    (Op::AccMac, 0, 32, 1, [0xffff_ffff, 0xffff_ffff, 0], 0, 2),
    (Op::AccMac, 0, 32, 1, [0xffff_ffff, 1, 0], 0, 0),
    (Op::AccMac, 0, 32, 1, [0xdead_beef_ffff_ffff, 0xdead_beef_8000_0000, 0], 0, 0x8000_0001),
    (Op::AccMac, 0, 32, 0xffff_ffff_ffff_ffff, [0x7fff_ffff, 0x7fff_ffff, 0], 0, 0x3fff_ffff_0000_0000),
    (Op::AccMac, 0, 32, 0xffff_ffff_ffff_ffff, [0x8000_0000, 0x8000_0000, 0], 0, 0x3fff_ffff_ffff_ffff),
    (Op::AccMac, 0, 32, 0xffff_ffff_ffff_ffff, [0x8000_0000, 0x7fff_ffff, 0], 0, 0xc000_0000_7fff_ffff),
    (Op::AccMac, 0, 32, 0xffff_ffff_ffff_ffff, [0xffff_ffff, 0xffff_ffff, 0], 0, 0),
    (Op::AccMac, 0, 32, 0xffff_ffff_ffff_ffff, [0xffff_ffff, 1, 0], 0, 0xffff_ffff_ffff_fffe),
    (Op::AccMac, 0, 32, 0xffff_ffff_ffff_ffff, [0xdead_beef_ffff_ffff, 0xdead_beef_8000_0000, 0], 0, 0x7fff_ffff),
];

#[rattlefmt::skip]
const PAIRS: [Case; 17] = [
    (Op::PairAdd, 0, 32, 5, [0, 0, 0], 0, 5),
    (Op::PairAdd, 0, 32, 5, [0xffff_ffff_ffff_ffff, 1, 0], 0, 5),
    (Op::PairAdd, 0, 32, 5, [0xffff_ffff_ffff_ffff, 0xffff_ffff_ffff_ffff, 0], 0xffff_ffff_ffff_fffe, 5),
    (Op::PairAdd, 0, 32, 5, [0x8000_0000_0000_0000, 0x8000_0000_0000_0000, 0], 0, 5),
    (Op::PairAdd, 0, 32, 5, [0xffff_ffff, 1, 0], 0x1_0000_0000, 5),
    (Op::PairAdd, 0, 32, 5, [0x123_4567_89ab_cdef, 0xfedc_ba98_7654_3210, 0], 0xffff_ffff_ffff_ffff, 5),
    (Op::PairMul, 0, 32, 5, [0, 0xffff_ffff, 0], 0, 5),
    (Op::PairMul, 0, 32, 5, [0x7fff_ffff, 0x8000_0000, 0], 0x3fff_ffff_8000_0000, 5),
    (Op::PairMul, 0, 32, 5, [0x8000_0000, 0x8000_0000, 0], 0x4000_0000_0000_0000, 5),
    (Op::PairMul, 0, 32, 5, [0xffff_ffff, 0xffff_ffff, 0], 0xffff_fffe_0000_0001, 5),
    (Op::PairMul, 0, 32, 5, [0xdead_beef_ffff_ffff, 0xdead_beef_0000_0002, 0], 0x1_ffff_fffe, 5),
    (Op::PairSum, 0, 32, 5, [0, 0, 0], 0, 5),
    (Op::PairSum, 0, 32, 5, [0x1_0000_0000, 0, 0], 1, 5),
    (Op::PairSum, 0, 32, 5, [0xffff_ffff_0000_0001, 0, 0], 0, 5),
    (Op::PairSum, 0, 32, 5, [0xffff_ffff_ffff_ffff, 0, 0], 0xffff_fffe, 5),
    (Op::PairSum, 0, 32, 5, [0x8000_0000_8000_0000, 0, 0], 0, 5),
    (Op::PairSum, 0, 32, 5, [0x123_4567_89ab_cdef, 0, 0], 0x8acf_1356, 5),
];

/// Runs each operation in the second of two units, on the second of its accumulators.
fn outcomes_are(rt: &impl Abort, alloc: Global, cases: &[Case]) -> Result<(), Fail> {
    for (op, low, len, q, lanes, result, accumulator) in cases {
        let got = outcome(rt, alloc, naming(*op, 1, *low, *len), *q, *lanes)?;
        assert_eq!(rt;
            got,
            (*result, *accumulator),
            "{op:?} {low} {len} {q:#x} {lanes:?}"
        );
    }
    Ok(())
}

fn outcome(
    rt: &impl Abort,
    alloc: Global,
    entry: Entry,
    q: u64,
    lanes: [u64; 3],
) -> Result<(u64, u64), Fail> {
    let mut set = Set::new(alloc);
    set.unit(1)?;
    set.unit(3)?;
    set.entry(entry)?;
    assert!(rt; set.check().is_ok());
    let params = params(3, 2, true);
    assert!(rt; params.check().is_ok());
    let Some(hit) = set.accept(&params, 0) else {
        return Err(Fail::new("no hit"));
    };
    let mut state = UnitState::new(alloc, &set)?;
    write(rt, &set, &mut state, 1, 1, q);
    let result = set.apply(&hit, &mut state, &Operands { lanes });
    assert_eq!(rt; read(rt, &set, &state, 0, 0), 0);
    assert_eq!(rt; read(rt, &set, &state, 1, 0), 0);
    assert_eq!(rt; read(rt, &set, &state, 1, 2), 0);
    Ok((result, read(rt, &set, &state, 1, 1)))
}

fn write(rt: &impl Abort, set: &Set, state: &mut UnitState, unit: u8, acc: u8, value: u64)
    requires { IsStateOf set.now state.old }
    ensures { IsStateOf set.now state.new }
{
    assert!(rt; usize::from(unit) < set.len());
    let accumulators = set.get(usize::from(unit)).accumulators;
    assert!(rt; acc < accumulators);
    state.put(unit, acc, value);
}

fn read(rt: &impl Abort, set: &Set, state: &UnitState, unit: u8, acc: u8) -> u64
    requires { IsStateOf set.now state.now }
{
    assert!(rt; usize::from(unit) < set.len());
    let accumulators = set.get(usize::from(unit)).accumulators;
    assert!(rt; acc < accumulators);
    state.get(unit, acc)
}

#[test]
fn operations_by_their_table(rt: HostRuntime) -> Result<(), Fail> {
    outcomes_are(&rt, rt.alloc(), &FIELDS)?;
    outcomes_are(&rt, rt.alloc(), &BITS)?;
    outcomes_are(&rt, rt.alloc(), &ACCUMULATORS)?;
    outcomes_are(&rt, rt.alloc(), &PRODUCTS)?;
    outcomes_are(&rt, rt.alloc(), &PAIRS)
}

/// What is wrong with a set of two units. The second has this number of accumulators, and `before`
/// entries before its last.
fn check(
    rt: &impl Abort,
    alloc: Global,
    first: Entry,
    accumulators: u8,
    before: usize,
    last: Entry,
) -> Result<Option<(SetCause, u16, u16)>, NoMemory> {
    let mut set = Set::new(alloc);
    set.unit(1)?;
    set.entry(first)?;
    set.unit(accumulators)?;
    for _ in 0..before {
        assert!(rt; set.len() > 0);
        set.entry(entry(Op::Ones))?;
    }
    assert!(rt; set.len() > 0);
    set.entry(last)?;
    Ok(match set.check() {
        Ok(()) => None,
        Err(SetFault { cause, unit, entry }) => Some((cause, unit, entry)),
    })
}

#[test]
fn sets_are_checked_in_order(rt: HostRuntime) -> Result<(), Fail> {
    let good = entry(Op::Ones);
    let mask = Entry {
        matched: 0x80,
        ..entry(Op::AccAdd)
    };
    let mask_and_accumulator = Entry { acc: 16, ..mask };
    let field = naming(Op::ExtractS, 0, 0, 0);
    for (first, accumulators, before, last, want) in [
        (good, 16, 31, good, None),
        // What an operation doesn't name is not checked.
        (
            naming(Op::Ones, 15, 0, 0),
            0,
            0,
            naming(Op::Merge, 15, 31, 32),
            None,
        ),
        (good, 16, 32, good, Some((SetCause::TooManyEntries, 1, 0))),
        (good, 17, 32, good, Some((SetCause::TooManyEntries, 1, 0))),
        (good, 17, 0, good, Some((SetCause::BadAccumulator, 1, 0))),
        // The sizes of all units come before the entries of the first.
        (mask, 17, 0, good, Some((SetCause::BadAccumulator, 1, 0))),
        (mask, 16, 2, field, Some((SetCause::BadMask, 0, 0))),
        (
            naming(Op::AccSwap, 1, 0, 32),
            16,
            0,
            field,
            Some((SetCause::BadAccumulator, 0, 0)),
        ),
        (
            good,
            16,
            2,
            mask_and_accumulator,
            Some((SetCause::BadMask, 1, 2)),
        ),
        (
            good,
            16,
            2,
            naming(Op::PairRead, 16, 0, 32),
            Some((SetCause::BadAccumulator, 1, 2)),
        ),
        (good, 16, 31, field, Some((SetCause::BadField, 1, 31))),
        (good, 0, 0, naming(Op::Insert, 0, 31, 1), None),
        (
            good,
            0,
            0,
            naming(Op::Insert, 0, 31, 2),
            Some((SetCause::BadField, 1, 0)),
        ),
        (
            good,
            0,
            0,
            naming(Op::ExtractU, 0, 255, 255),
            Some((SetCause::BadField, 1, 0)),
        ),
    ] {
        let got = check(&rt, rt.alloc(), first, accumulators, before, last)?;
        assert_eq!(rt; got, want, "{first:?} {accumulators} {before} {last:?}");
    }
    let mut set = Set::new(rt.alloc());
    for _ in 0..8 {
        set.unit(0)?;
    }
    assert_eq!(rt; set.check(), Ok(()));
    set.unit(17)?;
    let many = SetFault {
        cause: SetCause::TooManyUnits,
        unit: 0,
        entry: 0,
    };
    assert_eq!(rt; set.check(), Err(many));
    Ok(())
}

/// `num_rs`, `dual_read`, `dual_write` and a word; the numbers of the unit and of its entry that
/// takes it, and the bits of what it reads and writes.
type Taken = (u8, u8, bool, u32, Option<(u8, u8, u8, u8)>);

const BY_SEVEN: [Taken; 16] = [
    (2, 1, true, 0x0000_800b, Some((0, 0, 1, 0))),
    (2, 1, true, 0x0020_d18b, Some((0, 5, 5, 1))),
    (2, 1, true, 0x0001_428b, Some((0, 4, 3, 1))),
    (2, 1, true, 0x0001_c28b, None),
    (2, 1, true, 0x0031_300b, Some((0, 3, 5, 3))),
    (2, 1, true, 0x0031_308b, None),
    (2, 1, true, 0x0000_128b, Some((0, 1, 1, 1))),
    (2, 1, true, 0x0000_200b, Some((0, 2, 0, 1))),
    (2, 1, true, 0x0000_600b, Some((0, 6, 0, 1))),
    (2, 1, true, 0x0000_700b, None),
    (2, 1, true, 0x0000_000f, None),
    (3, 0, false, 0x0001_428b, None),
    (3, 0, false, 0x0031_300b, None),
    (3, 0, false, 0x0020_d18b, Some((0, 5, 3, 1))),
    (3, 3, false, 0x0031_300b, None),
    (3, 0, true, 0x0031_300b, Some((0, 3, 3, 3))),
];

const BY_THREE: [Taken; 11] = [
    (2, 0, false, 0, Some((2, 1, 1, 1))),
    (3, 0, false, 0, Some((1, 0, 7, 1))),
    (3, 3, false, 0, Some((1, 0, 21, 1))),
    (2, 2, true, 0, Some((1, 1, 15, 3))),
    (2, 1, true, 0, Some((2, 0, 3, 1))),
    (2, 2, false, 0, Some((2, 0, 3, 1))),
    (2, 2, true, 0x0030_0000, Some((2, 0, 3, 1))),
    (2, 2, true, 0x0000_8000, Some((2, 1, 1, 1))),
    (2, 2, true, 0x0000_0080, Some((2, 0, 3, 1))),
    (2, 2, true, 0x0022_0300, Some((1, 1, 15, 3))),
    (2, 2, true, 0x1800_0000, Some((1, 1, 15, 3))),
];

fn words_are_taken(rt: &impl Abort, set: &Set, cases: &[Taken]) {
    assert!(rt; set.check().is_ok());
    for (num_rs, dual_read, dual_write, word, want) in cases {
        let params = params(*num_rs, *dual_read, *dual_write);
        assert!(rt; params.check().is_ok());
        let got = set.accept(&params, *word).map(|hit| (
            hit.unit,
            hit.entry,
            hit.register_read.bits(),
            hit.writeback.bits(),
        ));
        assert_eq!(rt; got, *want, "{word:#x} {num_rs} {dual_read} {dual_write}");
    }
}

#[test]
fn the_first_entry_that_the_parameters_allow_takes_a_word(rt: HostRuntime) -> Result<(), Fail> {
    words_are_taken(&rt, &seven_entries(&rt, rt.alloc())?, &BY_SEVEN);
    let mut three = Set::new(rt.alloc());
    three.unit(1)?;
    three.unit(1)?;
    three.entry(entry(Op::Merge))?;
    assert!(rt; three.len() > 0);
    three.entry(entry(Op::PairAdd))?;
    three.unit(1)?;
    three.entry(entry(Op::PairSum))?;
    assert!(rt; three.len() > 0);
    three.entry(entry(Op::Ones))?;
    words_are_taken(&rt, &three, &BY_THREE);
    Ok(())
}

#[test]
fn sets_and_states_are_copied(rt: HostRuntime) -> Result<(), Fail> {
    let set = seven_entries(&rt, rt.alloc())?;
    let copy = set.copy(rt.alloc())?;
    assert!(rt; copy.len() == 1);
    let unit = copy.get(0);
    assert!(rt; (unit.accumulators, unit.len()) == (2, 7));
    assert_eq!(rt; unit.get(4).op, Op::PairSum);
    let mut state = UnitState::new(rt.alloc(), &set)?;
    write(&rt, &set, &mut state, 0, 1, 0xffff_ffff_ffff_ffff);
    let before = state.copy(rt.alloc())?;
    write(&rt, &set, &mut state, 0, 1, 3);
    assert_eq!(rt; read(&rt, &set, &before, 0, 0), 0);
    assert_eq!(rt; read(&rt, &set, &before, 0, 1), 0xffff_ffff_ffff_ffff);
    assert_eq!(rt; read(&rt, &set, &state, 0, 0), 0);
    assert_eq!(rt; read(&rt, &set, &state, 0, 1), 3);
    Ok(())
}
