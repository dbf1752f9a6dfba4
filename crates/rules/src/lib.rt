// Rules: mission-time temporal logic over clips, and the loading of a rule's bytes.
#![tactic(auto)]

mod check;
mod gather;
pub mod item;
pub mod load;
