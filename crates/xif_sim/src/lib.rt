//! Simulates core and coprocessors on one bus: cycle by cycle, or a whole run.
//!
//! `one_cycle` takes a core and an engine through a cycle, and no premise of it speaks of both but
//! that they have the same parameters. A `Setup` says what a run is made of. `simulate` keeps all
//! of the run; a `Simulation` returns the same run cycle by cycle, for callers that write or count
//! what they get and keep nothing.
//!
//! What a cycle and a run are is defined in the crate `cycle_spec` (`Cycle` and `Run` there). Here
//! `specs/Setup.antt` says which setups are lawful, and `specs/Simulating.antt` what a `Simulation`
//! has told of a run and what is to come. What `simulate` says of every run besides, that it leaves
//! what the in-order machine leaves, that its signals are legal, that it is eager and that it keeps
//! pace, is defined in the crate `run_laws` (`Headline`), whose law it rests on.
#![tactic(auto)]

mod buses;
mod cycle;
mod logs;
mod retires;
mod run;
mod setup;
mod simulation;

pub use buses::Buses;
pub use cycle::one_cycle;
pub use logs::Logs;
pub use retires::Retires;
pub use run::{Run, simulate};
pub use setup::Setup;
pub use simulation::Simulation;
