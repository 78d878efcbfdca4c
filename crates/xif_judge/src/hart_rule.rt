//! The rule H1 (CV-X-IF 1.0.0, "Identification").
ghost use Rattle.std.specs.Prelude.{◌≡◌, ◌∷◌, [], OnOk};
ghost use Rattle.xif_signals.specs.declared.rule.Rule.TheVariants.{H1};
ghost use Rattle.xif_session.specs.Facts.{Past};
ghost use Rattle.xif_session.specs.Rules.{HoldsH1};
ghost use Rattle.xif_session.specs.Tests as tests;
ghost use Rattle.xif_session.specs.Tests.{answer_of, first_fault_in};

use xif_base::Params;
use xif_session::Fault;
use xif_signals::{Bus, Channel, Rule};

/// Judges H1 in a cycle.
pub fn judge_harts(params: &Params, bus: &Bus) -> Result<(), Fault>
    ensures fault { (p : Past) →
        result ≡ answer_of (first_fault_in (H1 ∷ []) params.now p bus.now) }
    ensures harts { OnOk result (HoldsH1 params.now bus.now) }
{
    match lost_channel(params, bus) {
        None => Ok(()),
        Some(channel) => Err(Fault {
            rule: Rule::H1,
            channel,
            key: bus.key(channel),
        }),
    }
}

/// The first channel whose hartid is that of no hart.
fn lost_channel(params: &Params, bus: &Bus) -> Option<Channel>
    ensures { result ≡ tests.lost_channel params.now bus.now }
{
    Channel::first_failing(|channel| has_hart(params, bus, channel))
}

/// Whether the hartid of a channel is that of a hart.
fn has_hart(params: &Params, bus: &Bus, channel: Channel) -> bool
    ensures { result ≡ tests.has_hart params.now bus.now channel }
{
    !bus.is_valid(channel) || bus.key(channel).hart < params.num_harts
}
