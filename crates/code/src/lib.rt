// Sequencer code as bytes: loading it. It knows nothing of rules, and nothing of what code does.
#![tactic(auto)]

mod check;
pub mod instruction;
pub mod load;
