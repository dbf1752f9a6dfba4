// Breadth first over any step function: definitions and theorems, and no code.
#![tactic(auto)]
