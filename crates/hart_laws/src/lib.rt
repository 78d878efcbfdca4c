//! What the engine keeps of the other harts in a cycle for one hart.
//!
//! An engine serves cores of several harts, each in cycles of its own. `specs/Harts.antt` has the
//! uses of one hart, and says of which engines the laws speak: of all that began new and went from
//! cycle to cycle. `others_law` says that a cycle for one hart leaves the uses and the accumulators
//! of every other hart, but that a use of another hart ends where its result is taken in the cycle;
//! `session_law`, that where harts take turns no such result is there.
#![tactic(auto)]

mod laws;

pub use laws::{others_law, session_law};
