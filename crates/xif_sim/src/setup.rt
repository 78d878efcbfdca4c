//! What a run is made of.
ghost use Rattle.std.specs.Prelude.{◌<◌, All};
ghost use Rattle.trace_laws.specs.Sessions.{HasBytes};

use coproc_config::Set;
use std::marker::Model;
use xif_base::Params;
use xif_drive::Script;
use xif_image::Memory;

/// What a run is made of, but for its predictor.
#[derive(Drop)]
pub struct Setup {
    pub params: Params,
    pub set: Set,
    pub script: Script,
    /// How many instructions may be in flight, from 1 to 32.
    pub window: u8,
    /// How many cycles may pass without a stop, from 1 to 4,000,000.
    pub budget: u32,
    pub memory: Memory,
    /// The address of the first instruction, a multiple of 4.
    pub entry: u32,
}

impl Model for Setup {
    ghost use Rattle.cycle_spec.specs.Run.{Setup as RunSetup};

    ghost Value = { RunSetup };

    ghost view = { λ s. record {
      params = s.params;
      set = s.set;
      script = s.script;
      window = s.window;
      budget = s.budget;
      memory = s.memory;
      entry = s.entry;
    } };
}

impl Setup {
    /// Does nothing: its contract says that the numbers in the memory are bytes, as their type has
    /// it.
    pub fn has_bytes(&self)
        ensures { HasBytes (self.now).memory }
    {
        bytes_fit(self.memory.bytes());
    }
}

fn bytes_fit(bytes: &[u8])
    ensures { All (λ byte. byte < 256) bytes.now }
{}
