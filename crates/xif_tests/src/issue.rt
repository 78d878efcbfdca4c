//! The issue side: sessions in which one of its rules fails, and ones in which none does.
ghost use Rattle.std.specs.Prelude.{◌≤◌, ◌^◌};
ghost use Rattle.xif_base.specs.Params.{IsInRange};

use issue_channel::IssueSide;
use std::alloc::Global;
use std::test::Fail;
use xif_base::{Key, Params};
use xif_session::Fault;
use xif_signals::{Bus, Channel, Rule};
use xif_uses::UseTable;

/// Two harts with 8 ids, and pairs on both lanes and in results.
fn params(split: bool) -> Params
    ensures range { IsInRange result }
    ensures harts { 2 ^ result.hartid_width ≤ result.num_harts }
{
    Params {
        num_rs: 2,
        id_width: 3,
        rfr_width: 64,
        rfw_width: 64,
        num_harts: 2,
        hartid_width: 1,
        dual_read: 2,
        dual_write: true,
        split,
        profile: 1,
    }
}

/// No channel is valid.
const IDLE: Bus = Bus {
    issue_valid: false,
    issue_ready: false,
    issue_hartid: 0,
    issue_id: 0,
    issue_instr: 0,
    issue_accept: false,
    issue_writeback: 0,
    issue_register_read: 0,
    register_valid: false,
    register_ready: false,
    register_hartid: 0,
    register_id: 0,
    register_rs0: 0,
    register_rs1: 0,
    register_rs2: 0,
    register_rs_valid: 0,
    commit_valid: false,
    commit_hartid: 0,
    commit_id: 0,
    commit_kill: false,
    result_valid: false,
    result_ready: false,
    result_hartid: 0,
    result_id: 0,
    result_data: 0,
    result_rd: 0,
    result_we: 0,
};

/// An instruction of custom-0 with rd = x5, rs1 = x3 and rs2 = x2, offered under id 1 of hart 1.
fn offer() -> Bus {
    Bus {
        issue_valid: true,
        issue_hartid: 1,
        issue_id: 1,
        issue_instr: 0x0021_828b,
        ..IDLE
    }
}

/// It is accepted: it writes rd, and reads the low halves of both lanes.
fn accepted() -> Bus {
    Bus {
        issue_ready: true,
        issue_accept: true,
        issue_writeback: 1,
        issue_register_read: 5,
        ..offer()
    }
}

/// It is offered, and its low halves wait for ready on the register channel.
fn registers() -> Bus {
    Bus {
        register_valid: true,
        register_hartid: 1,
        register_id: 1,
        register_rs0: 10,
        register_rs1: 11,
        register_rs_valid: 5,
        ..offer()
    }
}

/// I1 to I5 each fail once. An offer that was retracted is over, so that the next one may be another
/// instruction.
fn issue_sessions() -> [[Bus; 3]; 6] {
    let idle = IDLE;
    let offer = offer();
    let accepted = accepted();
    let other = Bus {
        issue_instr: 0x0021_810b,
        ..offer
    };
    let refused = Bus {
        issue_accept: false,
        ..accepted
    };
    let pair = Bus {
        issue_writeback: 3,
        ..accepted
    };
    let odd = Bus {
        issue_register_read: 7,
        ..accepted
    };
    [
        [offer, other, idle],
        [accepted, offer, idle],
        [offer, refused, idle],
        [offer, offer, pair],
        [odd, idle, idle],
        [offer, idle, other],
    ]
}

/// G2 to G5 each fail. G5 is judged where the response comes last, and where the registers do.
fn register_sessions() -> [[Bus; 3]; 5] {
    let idle = IDLE;
    let accepted = accepted();
    let registers = registers();
    let given = Bus {
        register_ready: true,
        ..registers
    };
    let fewer = Bus {
        register_rs_valid: 1,
        ..registers
    };
    let changed = Bus {
        register_rs1: 12,
        ..registers
    };
    let too_few = Bus {
        register_ready: true,
        ..fewer
    };
    let alone = Bus {
        issue_valid: false,
        issue_id: 2,
        ..too_few
    };
    [
        [given, registers, idle],
        [registers, fewer, idle],
        [registers, registers, changed],
        [too_few, accepted, idle],
        [accepted, alone, idle],
    ]
}

#[test]
fn each_issue_rule_fails_alone(rt: HostRuntime) -> Result<(), Fail> {
    let text = text_of(rt.alloc(), &issue_sessions())?;
    assert_eq!(rt; text.as_str(), ISSUE_FAULTS);
    Ok(())
}

#[test]
fn each_register_rule_fails_alone(rt: HostRuntime) -> Result<(), Fail> {
    let text = text_of(rt.alloc(), &register_sessions())?;
    assert_eq!(rt; text.as_str(), REGISTER_FAULTS);
    Ok(())
}

/// Without split, the registers have to come with the offer.
#[test]
fn the_register_channel_mirrors_the_issue_channel(rt: HostRuntime) -> Result<(), Fail> {
    let found = first_fault(rt.alloc(), &params(false), &[registers(), offer()])?;
    let key = Key { hart: 1, id: 1 };
    let fault = Fault {
        rule: Rule::G1,
        channel: Channel::Register,
        key,
    };
    assert_eq!(rt; found, Some((1, fault)));
    Ok(())
}

/// A line for each session, with its first fault.
fn text_of(alloc: Global, sessions: &[[Bus; 3]]) -> Result<String, Fail> {
    let mut text = String::new(alloc);
    for buses in sessions {
        let found = first_fault(alloc, &params(true), buses)?;
        writeln!(text, "{found:?}")?;
    }
    Ok(text)
}

/// The cycle of the first fault of a session, and the fault.
fn first_fault(alloc: Global, params: &Params, buses: &[Bus]) -> Result<Option<(u64, Fault)>, Fail>
    requires range { IsInRange params.now }
    requires harts { 2 ^ params.now.hartid_width ≤ params.now.num_harts }
{
    let mut uses = UseTable::new(alloc, params)?;
    let mut side = IssueSide::new(params);
    let mut cycle = 0;
    for bus in buses {
        let Ok(bus) = bus.sample().known(params) else {
            return Ok(None);
        };
        if let Err(fault) = side.step(&mut uses, cycle, &bus) {
            return Ok(Some((cycle, fault)));
        }
        cycle += 1;
    }
    Ok(None)
}

const ISSUE_FAULTS: &str = "\
Some((1, Fault { rule: I1, channel: Issue, key: Key { hart: 1, id: 1 } }))
Some((1, Fault { rule: I2, channel: Issue, key: Key { hart: 1, id: 1 } }))
Some((1, Fault { rule: I3, channel: Issue, key: Key { hart: 1, id: 1 } }))
Some((2, Fault { rule: I4, channel: Issue, key: Key { hart: 1, id: 1 } }))
Some((0, Fault { rule: I5, channel: Issue, key: Key { hart: 1, id: 1 } }))
None
";

const REGISTER_FAULTS: &str = "\
Some((1, Fault { rule: G2, channel: Register, key: Key { hart: 1, id: 1 } }))
Some((1, Fault { rule: G3, channel: Register, key: Key { hart: 1, id: 1 } }))
Some((2, Fault { rule: G4, channel: Register, key: Key { hart: 1, id: 1 } }))
Some((1, Fault { rule: G5, channel: Register, key: Key { hart: 1, id: 1 } }))
Some((1, Fault { rule: G5, channel: Register, key: Key { hart: 1, id: 1 } }))
";
