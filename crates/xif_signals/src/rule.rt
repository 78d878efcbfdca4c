//! The rules of a session, the channels that they are judged at, and the fault of bits that are
//! unknown.

/// A rule of a session. The rules are judged in this order.
#[derive(Clone, Copy, Debug, PartialEq, Eq)]
pub enum Rule {
    /// Each valid is known, and ready is known where its valid is 1.
    K1,
    /// What a channel carries is known where its valid is 1.
    K2,
    /// Each hartid is below X_NUM_HARTS where its valid is 1.
    H1,
    /// An instruction that is offered doesn't change.
    I1,
    /// No key is used twice at a time.
    I2,
    /// What isn't accepted writes nothing.
    I3,
    /// Register pairs are written only where X_DUALWRITE is 1, and at an even register.
    I4,
    /// Register pairs are read only at an even register.
    I5,
    /// Without split, registers come with the issue of the instruction.
    G1,
    /// Registers are for an instruction in use, once.
    G2,
    /// A register that is valid stays valid until the handshake.
    G3,
    /// A register that is valid doesn't change until the handshake.
    G4,
    /// The registers that an instruction reads are valid.
    G5,
    /// A commit names an instruction in use.
    C1,
    /// What was killed isn't released.
    C2,
    /// What was released isn't killed.
    C3,
    /// A result stays valid until the handshake.
    R1,
    /// A result doesn't change until the handshake.
    R2,
    /// A result is for an instruction that was accepted and released, once.
    R3,
    /// A result comes after the registers that it depends on.
    R4,
    /// A result writes what the issue response said.
    R5,
    /// A result writes the register that the instruction names.
    R6,
}

/// A channel of the interface (CV-X-IF 1.0.0, "Issue interface", "Register interface", "Commit
/// interface" and "Result interface"). Each rule is judged channel by channel, in this order.
#[derive(Clone, Copy, Debug, PartialEq, Eq)]
pub enum Channel {
    Issue,
    Register,
    Commit,
    Result,
}

impl Channel {
    ghost use Rattle.std.specs.Prelude.{◌≡◌, Bool};
    ghost use Rattle.xif_signals.specs.Channels.{first_failing_channel};

    /// The first channel at which a test fails.
    pub fn first_failing<F: Fn(Channel) -> bool>(holds: F) -> Option<Channel>
        requires { F.IsAlwaysCallable holds }
        ensures { (test : Channel → Bool)
            → ((channel : Channel) (held : Bool) → F.post holds channel held → held ≡ test channel)
            → result ≡ first_failing_channel test }
    {
        if !holds(Channel::Issue) {
            Some(Channel::Issue)
        } else if !holds(Channel::Register) {
            Some(Channel::Register)
        } else if !holds(Channel::Commit) {
            Some(Channel::Commit)
        } else if !holds(Channel::Result) {
            Some(Channel::Result)
        } else {
            None
        }
    }
}

/// The first of the rules K1 and K2 that fails, and the first channel at which it does.
#[derive(Clone, Copy, Debug, PartialEq, Eq)]
pub struct Unknown {
    pub rule: Rule,
    pub channel: Channel,
}
