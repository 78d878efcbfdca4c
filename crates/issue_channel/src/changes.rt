//! What a cycle's starts, responses and operands change in the table of uses.
ghost use Rattle.std.specs.Prelude.{◌≡◌, ◌≢◌, ◌+◌, false, IsTrue, IfSome};
ghost use Rattle.xif_base.specs.declared.params.Key.{Key};
ghost use Rattle.xif_base.specs.declared.params.Params.{Params};
ghost use Rattle.xif_session.specs.Facts as session;
ghost use Rattle.xif_session.specs.Facts.{Facts, Past};
ghost use Rattle.xif_uses.specs.declared.handshake.Phase.TheVariants.{Starts, Continues};
ghost use Rattle.xif_uses.specs.Table.{IsKey, Represents, StartsBefore, use_of};
ghost use Rattle.issue_channel.specs.Following.{IsOpen};
ghost use Rattle.issue_channel.specs.Steps.{issue_phase, HasKeys, AwaitsOperands, SameStarts};

use crate::issue_rules::is_issued;
use crate::register_rules::is_given;
use bitflags::Flags;
use xif_base::{Key, ReadFlags, WriteFlags};
use xif_session::Response;
use xif_signals::{Bus, Channel};
use xif_uses::{Phase, UseTable};

/// Ends a transaction that waited and doesn't continue.
pub fn note_retraction(uses: &mut UseTable, waiting: Option<Key>, phase: Phase)
    requires { IfSome waiting (IsOpen uses.old) }
    ensures facts { (params : Params) (facts : Facts) → Represents uses.old params facts
        → Represents uses.new params facts }
    ensures starts { SameStarts uses.old uses.new }
    ensures kept { phase ≡ Continues → uses.new ≡ uses.old }
    ensures ended { phase ≢ Continues → IfSome waiting (λ key.
        IfSome (use_of uses.new key) (λ latest. latest.ongoing ≡ false)) }
{
    if let Some(key) = waiting
        && phase != Phase::Continues
    {
        uses.end_retracted(key);
    }
}

/// Starts the use that is offered, where the cycle starts one.
pub fn note_start(uses: &mut UseTable, phase: Phase, cycle: u64, bus: &Bus)
    requires key { phase ≡ Starts → IsKey uses.old.params (session.issue_key bus.now) }
    requires earlier { StartsBefore uses.old cycle }
    ensures facts { (params : Params) (p : Past) → p.cycle ≡ cycle → phase ≡ issue_phase p bus.now
        → Represents uses.old params p.facts
        → Represents uses.new params (session.named p bus.now) }
    ensures earlier { StartsBefore uses.new (cycle + 1) }
    ensures offered { phase ≡ Starts → IsOpen uses.new (session.issue_key bus.now) }
    ensures kept { phase ≢ Starts → uses.new ≡ uses.old }
    ensures params { uses.new.params ≡ uses.old.params }
{
    if phase == Phase::Starts {
        uses.start(bus.key(Channel::Issue), cycle, bus.issue_instr);
    }
}

/// Notes the response at the issue handshake.
pub fn note_response(uses: &mut UseTable, bus: &Bus)
    requires offered { IsTrue bus.now.issue_valid → IsOpen uses.old (session.issue_key bus.now) }
    requires keys { HasKeys uses.old.params bus.now }
    requires awaits { AwaitsOperands uses.old bus.now }
    ensures facts { (params : Params) (facts : Facts) → Represents uses.old params facts
        → Represents uses.new params (session.answered_on bus.now facts) }
    ensures starts { SameStarts uses.old uses.new }
    ensures kept { session.is_issued bus.now ≡ false → uses.new ≡ uses.old }
    ensures awaits { AwaitsOperands uses.new bus.now }
{
    if is_issued(bus) {
        uses.response(bus.key(Channel::Issue), response_on(bus));
    }
}

/// Notes the operands at the register handshake.
pub fn note_operands(uses: &mut UseTable, bus: &Bus)
    requires keys { HasKeys uses.old.params bus.now }
    requires awaits { AwaitsOperands uses.old bus.now }
    ensures facts { (params : Params) (facts : Facts) → Represents uses.old params facts
        → Represents uses.new params (session.given_on bus.now facts) }
    ensures starts { SameStarts uses.old uses.new }
    ensures offered { (key : Key) → IsOpen uses.old key → IsOpen uses.new key }
{
    if is_given(bus) {
        let flags = ReadFlags::from_bits_retain(bus.register_rs_valid);
        uses.operands(bus.key(Channel::Register), flags);
    }
}

fn response_on(bus: &Bus) -> Response
    ensures { result ≡ session.response_on bus.now }
{
    Response {
        accept: bus.issue_accept,
        writeback: WriteFlags::from_bits_retain(bus.issue_writeback),
        register_read: ReadFlags::from_bits_retain(bus.issue_register_read),
    }
}
