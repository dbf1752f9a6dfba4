// The search: whether any clip satisfies a rule, and the first one that does.
#![tactic(auto)]

mod explore;
mod flags;
pub mod search;
