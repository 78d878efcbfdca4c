//! The places of the signals in a waveform.
ghost use Rattle.std.specs.Prelude.{◌≡◌, slice_set};
ghost use Rattle.xif_signals.specs.Signal.{signal_number};
ghost use Rattle.xif_sampler.specs.Places.{defaults, place_at};

use std::marker::Model;
use xif_base::Name;
use xif_signals::Signal;

/// Where a signal is found in a waveform.
#[derive(Debug, Drop)]
pub enum Place {
    /// In the variable whose full name is `xif.` and the signal's name, from its bit 0 on. The
    /// reset is 1 where there is no such variable.
    Default,
    /// In a variable.
    Variable {
        /// The full name of the variable.
        name: Name,
        /// The lowest bit that is taken, counted from the last digit of a value as 0.
        low: u32,
        /// Where it is given, the highest bit that may be taken, which is to be a bit of the
        /// variable.
        high: Option<u32>,
    },
    /// Nowhere: it always has this value, of which the bits below the signal's width count. A
    /// signal without bits is 0. A constant clock never rises.
    Constant(u64),
}

/// A place for each of the signals.
///
/// Contracts see it as the list of the places, in the order of the table.
#[derive(Debug, Drop)]
pub struct SignalMap {
    places: [Place; 29],
}

impl Model for SignalMap {
    ghost use Rattle.std.specs.Prelude.{List};
    ghost use Rattle.xif_sampler.specs.declared.place.Place.{Place};

    ghost Value = { List Place };

    ghost view = { λ m. m.places };
}

impl SignalMap {
    /// Each signal is found in the variable of its default name.
    pub fn new() -> SignalMap
        ensures { result ≡ defaults }
    {
        SignalMap {
            places: [
                Place::Default,
                Place::Default,
                Place::Default,
                Place::Default,
                Place::Default,
                Place::Default,
                Place::Default,
                Place::Default,
                Place::Default,
                Place::Default,
                Place::Default,
                Place::Default,
                Place::Default,
                Place::Default,
                Place::Default,
                Place::Default,
                Place::Default,
                Place::Default,
                Place::Default,
                Place::Default,
                Place::Default,
                Place::Default,
                Place::Default,
                Place::Default,
                Place::Default,
                Place::Default,
                Place::Default,
                Place::Default,
                Place::Default,
            ],
        }
    }

    /// The place of a signal.
    pub fn get(&self, signal: Signal) -> &Place
        ensures { result.now ≡ place_at self.now signal }
    {
        &self.places[usize::from(signal.number())]
    }

    /// Gives a signal this place, and leaves those of the others as they are.
    pub fn set(&mut self, signal: Signal, place: Place)
        ensures { self.new ≡ slice_set self.old (signal_number signal) place }
    {
        self.places[usize::from(signal.number())] = place;
    }
}
