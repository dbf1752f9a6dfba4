// The emitter: rules as code for the sequencer.
#![tactic(auto)]

mod emission;
pub mod emit;
pub mod prepare;
mod write;
