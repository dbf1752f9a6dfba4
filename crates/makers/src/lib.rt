// The makers: new rules of accepted ones.
#![tactic(auto)]

pub mod make;
