// The bytes of rules and of code: numbers, items, and the one reader of both.
#![tactic(auto)]

pub mod item;
pub mod number;
pub mod reader;
