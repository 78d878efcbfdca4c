//! What a rule that fails reports.
ghost use Rattle.std.specs.Prelude.{◌≡◌, if◌then◌else◌, Ok, Err};
ghost use Rattle.xif_session.specs.Tests as tests;

use xif_session::Fault;
use xif_signals::{Bus, Channel, Rule};

/// Reports a rule that fails on a channel, with the key that the channel carries.
pub fn check(holds: bool, rule: Rule, channel: Channel, bus: &Bus) -> Result<(), Fault>
    ensures { result ≡ (if holds then Ok tt else Err (tests.fault_on rule channel bus.now)) }
{
    if holds {
        return Ok(());
    }
    Err(Fault {
        rule,
        channel,
        key: bus.key(channel),
    })
}

/// Reports a rule that fails on the register channel, with the key of the issue channel or its own.
pub fn check_by_key(holds: bool, rule: Rule, by_issue: bool, bus: &Bus) -> Result<(), Fault>
    ensures { result ≡ (if holds then Ok tt else Err (tests.fault_by_key rule by_issue bus.now)) }
{
    if holds {
        return Ok(());
    }
    let channel = if by_issue {
        Channel::Issue
    } else {
        Channel::Register
    };
    Err(Fault {
        rule,
        channel: Channel::Register,
        key: bus.key(channel),
    })
}
