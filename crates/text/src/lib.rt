// Text in lent buffers: numbers by their decimal digits, words with numbers behind them, and bytes as two hex digits.
#![tactic(auto)]

pub mod digits;
