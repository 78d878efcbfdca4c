//! What is judged of the text of buses is what the rules say of the buses.
//!
//! A waveform of buses is written by `vcd_text`, sampled by `xif_sampler` and judged by
//! `waveform_judge`. `legal_text_law` joins the three: no sample of the text is lost, each reads as
//! the bus that was written, and the verdict is that on the session of these buses.
#![tactic(auto)]

mod laws;

pub use laws::legal_text_law;
