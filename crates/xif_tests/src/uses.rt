//! The table of uses: one use from its start to its result, decisions of groups, and a cleared
//! table; and the transactions of a channel.
use std::alloc::Global;
use std::test::Fail;
use xif_base::{Key, Params, ReadFlags, WriteFlags};
use xif_uses::{Handshake, Phase, Response, UseTable};

/// One hart with 8 ids, by the second profile.
const PARAMS: Params = Params {
    num_rs: 2,
    id_width: 3,
    rfr_width: 32,
    rfw_width: 32,
    num_harts: 1,
    hartid_width: 1,
    dual_read: 0,
    dual_write: false,
    split: true,
    profile: 2,
};

/// A use of id 7, from its start to its result.
#[test]
fn a_use_is_answered_and_finished(rt: HostRuntime) -> Result<(), Fail> {
    let text = text_of_one_use(rt.alloc())?;
    assert_eq!(rt; text.as_str(), ONE_USE);
    Ok(())
}

fn text_of_one_use(alloc: Global) -> Result<String, Fail> {
    let mut uses = UseTable::new(alloc, &PARAMS)?;
    let key = Key { hart: 0, id: 7 };
    let mut text = String::new(alloc);
    uses.start(key, 3, 0x0b);
    uses.response(key, ACCEPTS);
    writeln!(text, "{} {:?}", uses.in_flight(key), uses.latest(key))?;
    uses.operands(key, ReadFlags::BIT0);
    let decided = uses.decide(key, false);
    writeln!(text, "{decided:?} {:?}", uses.latest(key))?;
    Ok(text)
}

const ACCEPTS: Response = Response {
    accept: true,
    writeback: WriteFlags::RD,
    register_read: ReadFlags::BIT0,
};

const ONE_USE: &str = "\
true Some(Use { start: 3, instr: 11, ongoing: false, \
    response: Some(Response { accept: true, writeback: WriteFlags(1), register_read: ReadFlags(1) }), \
    operands: None, decision: Undecided, finished: false })
Taken Some(Use { start: 3, instr: 11, ongoing: false, \
    response: Some(Response { accept: true, writeback: WriteFlags(1), register_read: ReadFlags(1) }), \
    operands: Some(ReadFlags(1)), decision: Released, finished: false })
";

/// A kill has to wait for the answered use before it, and a release decides both.
#[test]
fn groups_are_decided_in_order(rt: HostRuntime) -> Result<(), Fail> {
    let text = text_of_decisions(rt.alloc())?;
    assert_eq!(rt; text.as_str(), DECISIONS);
    Ok(())
}

fn text_of_decisions(alloc: Global) -> Result<String, Fail> {
    let mut uses = UseTable::new(alloc, &PARAMS)?;
    let first = Key { hart: 0, id: 0 };
    let second = Key { hart: 0, id: 1 };
    let mut text = String::new(alloc);
    uses.start(first, 0, 0x0b);
    uses.response(first, ACCEPTS);
    uses.start(second, 1, 0x0b);
    writeln!(text, "{:?}", uses.decide(second, true))?;
    writeln!(text, "{:?}", uses.decide(second, false))?;
    writeln!(text, "{:?}", uses.decide(second, false))?;
    writeln!(text, "{:?}", uses.decide(first, true))?;
    Ok(text)
}

const DECISIONS: &str = "\
OutOfOrder
Taken
Repeat
WasReleased
";

#[test]
fn a_cleared_table_has_no_use(rt: HostRuntime) -> Result<(), Fail> {
    let mut uses = UseTable::new(rt.alloc(), &PARAMS)?;
    let key = Key { hart: 0, id: 0 };
    uses.start(key, 0, 0x0b);
    uses.clear();
    assert_eq!(rt; uses.latest(key), None);
    Ok(())
}

/// Valid, ready and id of a channel in each cycle, with what the cycle is.
const CYCLES: [(bool, bool, u16, Phase); 6] = [
    (false, true, 0, Phase::Idle),
    (true, false, 0, Phase::Starts),
    (true, false, 0, Phase::Continues),
    (true, true, 1, Phase::Starts),
    (true, false, 1, Phase::Starts),
    (false, false, 1, Phase::Idle),
];

#[test]
fn transactions_continue_while_they_wait(rt: HostRuntime) -> Result<(), Fail> {
    let mut channel = Handshake::new();
    for (valid, ready, id, phase) in &CYCLES {
        let key = Key { hart: 0, id: *id };
        assert_eq!(rt; channel.step(*valid, *ready, key), *phase);
    }
    channel.cut();
    Ok(())
}
