//! What a script means: its operands in a scope, its meaning, and that the run of its words makes what it means.
#![tactic(auto)]

pub mod laws;
