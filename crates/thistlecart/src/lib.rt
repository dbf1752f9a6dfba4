// The library as C programs meet it: exported functions over byte buffers that answer one 64-bit word, whose lowest
// byte is the refusal's number, 0 where there is none. An entry is a module: its answer's word, and its functions.
#![tactic(auto)]

pub mod emit;
pub mod load;
pub mod make;
pub mod run;
pub mod search;
mod word;
