// What rules, code and the search stand on: the limits of document 01, refusals, bytes, and bytes in buffers.
#![tactic(auto)]

pub mod buffer;
pub mod byte;
pub mod limits;
pub mod refusal;
