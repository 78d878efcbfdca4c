//! The log of a run: the text of an independent model for the same cycles.
use cycle_spec::{Cut, CycleLog, Dispatch};
use inorder_machine::{Retire, StopCause, Store, Write};
use run_log::{HexDouble, log_text, push_cycle};
use std::test::Fail;

/// A cycle in which nothing happens.
const NOTHING: CycleLog = CycleLog {
    retired: None,
    cut: None,
    dispatched: None,
    drained: None,
    stopped: None,
    pc: 0,
};

const LOGS: [CycleLog; 6] = [
    CycleLog {
        dispatched: Some(Dispatch {
            pc: 0x8000_0000,
            word: Some(0x0050_0093),
        }),
        ..NOTHING
    },
    CycleLog {
        retired: Some(Retire {
            pc: 0x8000_0000,
            word: 0x0050_0093,
            next: 0x8000_0004,
            write: Write::One { rd: 1, value: 5 },
            store: None,
        }),
        dispatched: Some(Dispatch {
            pc: 0x8000_0004,
            word: Some(0x0000_018b),
        }),
        ..NOTHING
    },
    CycleLog {
        retired: Some(Retire {
            pc: 0x8000_0004,
            word: 0x0000_018b,
            next: 0x8000_0008,
            write: Write::Pair {
                rd: 30,
                low: 0xdead_beef,
                high: 0,
            },
            store: None,
        }),
        ..NOTHING
    },
    CycleLog {
        retired: Some(Retire {
            pc: 0x8000_0008,
            word: 0x0011_0023,
            next: 0x8000_000c,
            write: Write::None,
            store: Some(Store {
                addr: 0xffff_fffc,
                width: 1,
                value: 0xef,
            }),
        }),
        cut: Some(Cut {
            keep: 1,
            target: 0x8000_000c,
        }),
        ..NOTHING
    },
    NOTHING,
    CycleLog {
        retired: Some(Retire {
            pc: 0x8000_000c,
            word: 0xfe00_0ee3,
            next: 0x8000_0008,
            write: Write::None,
            store: None,
        }),
        cut: Some(Cut {
            keep: 2,
            target: 0x8000_0008,
        }),
        dispatched: Some(Dispatch {
            pc: 0x8000_0008,
            word: None,
        }),
        drained: Some(32),
        stopped: Some(StopCause::FetchOutside),
        pc: 0x8000_0008,
    },
];

const TEXT: &str = "\
0 dispatch 0x80000000 0x00500093
1 retire 0x80000000 0x00500093
1 write x1 0x00000005
1 dispatch 0x80000004 0x0000018b
2 retire 0x80000004 0x0000018b
2 write x30 0xdeadbeef
2 write x31 0x00000000
3 retire 0x80000008 0x00110023
3 store 0xfffffffc 1 0x000000ef
3 cut 1 0x8000000c
5 retire 0x8000000c 0xfe000ee3
5 cut 2 0x80000008
5 dispatch 0x80000008 none
5 drain 32
5 stop fetch-outside 0x80000008
";

#[test]
fn a_log_has_a_line_for_each_thing_that_the_core_does(rt: HostRuntime) -> Result<(), Fail> {
    let text = log_text(rt.alloc(), 0, &LOGS)?;
    assert_eq!(rt; text.as_str(), TEXT);
    Ok(())
}

#[test]
fn a_cycle_is_appended_and_a_double_word_has_sixteen_digits(rt: HostRuntime) -> Result<(), Fail> {
    let mut text = format!(in rt.alloc(); "{} ", HexDouble(0x2a))?;
    let log = CycleLog {
        drained: Some(3),
        ..NOTHING
    };
    push_cycle(&mut text, 200_000, &log)?;
    assert_eq!(rt; text.as_str(), "0x000000000000002a 200000 drain 3\n");
    Ok(())
}
