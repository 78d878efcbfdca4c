//! The bits of the signals in one cycle, some of them unknown.
ghost use Rattle.std.specs.Prelude.{◌≡◌, ◌≢◌, ◌==◌, ◌<◌, ◌^◌, slice_set, map};
ghost use Rattle.std.specs.List.{list_all};
ghost use Rattle.xif_base.specs.Params.{IsInRange};
ghost use Rattle.xif_signals.specs.declared.signal.Signal.TheVariants.{Clk};
ghost use Rattle.xif_signals.specs.Signal.{width_of};
ghost use Rattle.xif_signals.specs.Quad.{known_quad, reading_of, place_of, quad_of, zeros, value_of, is_one, unknown_of, is_in_session};
ghost use Rattle.xif_signals.specs.Known.{is_known};

use crate::mask::low_bits;
use crate::signal::Signal;
use std::marker::Model;
use xif_base::Params;

/// The bits of a signal. A bit that is 1 in `unknown` is x or z (IEEE 1364-2005, 18.2.2); its bit
/// of `value` is to be 0, and reads as 0 whatever it is.
#[derive(Clone, Copy, Debug, PartialEq, Eq)]
pub struct Quad {
    pub value: u64,
    pub unknown: u64,
}

/// The bits of the signals in one cycle, but for the clock.
///
/// Contracts see it as the list of the bits of each signal, in the order of the table.
#[derive(Clone, Debug, Drop)]
pub struct Sample {
    quads: [Quad; 28],
}

impl Model for Sample {
    ghost use Rattle.std.specs.Prelude.{List};
    ghost use Rattle.xif_signals.specs.declared.sample.Quad.{Quad};

    ghost Value = { List Quad };

    ghost view = { λ s. s.quads };
}

impl Quad {
    /// A number, all bits of it known.
    fn of(value: u64) -> Quad
        ensures { result ≡ known_quad value }
    {
        Quad { value, unknown: 0 }
    }

    /// The number that it reads as: an unknown bit reads as 0.
    fn reading(&self) -> u64
        ensures { result ≡ reading_of self.now }
    {
        self.value & !self.unknown
    }
}

impl Sample {
    /// A sample in which all signals are 0.
    pub fn new() -> Sample
        ensures { result ≡ zeros }
    {
        Sample {
            quads: [Quad::of(0); 28],
        }
    }

    /// The sample with the bits of each signal but the clock, in the order of the table.
    pub fn from_quads(quads: [Quad; 28]) -> Sample
        ensures { result ≡ quads }
    {
        Sample { quads }
    }

    /// The bits of a signal other than the clock.
    pub fn get(&self, signal: Signal) -> Quad
        requires { signal ≢ Clk }
        ensures { result ≡ quad_of self.now signal }
    {
        self.quad(signal)
    }

    /// Sets the bits of a signal other than the clock.
    pub fn set(&mut self, signal: Signal, quad: Quad)
        requires { signal ≢ Clk }
        ensures set { self.new ≡ slice_set self.old (place_of signal) quad }
        ensures same { quad_of self.new signal ≡ quad }
    {
        self.quads[usize::from(signal.number()) - 1] = quad;
    }

    /// Whether the cycle is one of a session: rst_n is known to be 1. The other cycles separate
    /// sessions.
    pub fn is_in_session(&self, params: &Params) -> bool
        requires { IsInRange params.now }
        ensures { result ≡ is_in_session self.now params.now }
    {
        self.is_one(Signal::RstN, params)
    }

    /// The bits of any signal. No sample has the clock: it reads as the reset does.
    fn quad(&self, signal: Signal) -> Quad
        ensures { result ≡ quad_of self.now signal }
    {
        self.quads[usize::from(signal.number()).saturating_sub(1)]
    }

    /// The sample in which the signals but the clock have these values, all bits of them known.
    pub(crate) fn of(values: [u64; 28]) -> Sample
        ensures { result ≡ map known_quad values }
    {
        let mut quads = [Quad::of(0); 28];
        for (index, value) in values.iter().enumerate() {
            quads[index] = Quad::of(*value);
        }
        Sample { quads }
    }

    /// Whether no bit of any signal is unknown, below its width or above.
    pub(crate) fn are_all_known(&self) -> bool
        ensures { result ≡ list_all (λ quad. quad.unknown == 0) self.now }
    {
        self.quads.iter().all(|quad| quad.unknown == 0)
    }

    /// The bits below the signal's width, an unknown bit as 0.
    pub(crate) fn value(&self, signal: Signal, params: &Params) -> u64
        requires { IsInRange params.now }
        ensures value { result ≡ value_of self.now params.now signal }
        ensures below { result < 2 ^ width_of signal params.now }
    {
        low_bits(self.quad(signal).reading(), signal.width(params))
    }

    /// Whether a signal of one bit is known to be 1.
    pub(crate) fn is_one(&self, signal: Signal, params: &Params) -> bool
        requires { IsInRange params.now }
        ensures { result ≡ is_one self.now params.now signal }
    {
        self.value(signal, params) == 1
    }

    /// The unknown bits below the signal's width.
    pub(crate) fn unknown(&self, signal: Signal, params: &Params) -> u64
        requires { IsInRange params.now }
        ensures { result ≡ unknown_of self.now params.now signal }
    {
        low_bits(self.quad(signal).unknown, signal.width(params))
    }

    /// Whether all bits below the signal's width are known.
    pub(crate) fn is_known(&self, signal: Signal, params: &Params) -> bool
        requires { IsInRange params.now }
        ensures { result ≡ is_known self.now params.now signal }
    {
        self.unknown(signal, params) == 0
    }
}
