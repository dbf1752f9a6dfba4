// The sequencer: registers, one step, and the run over a clip. It knows nothing of rules.
#![tactic(auto)]

mod frame;
pub mod registers;
pub mod run;
