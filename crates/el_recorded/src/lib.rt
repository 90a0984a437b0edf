//! What eltrace answers to recorded runs: definitions and laws, and no code.
#![tactic(auto)]

pub mod laws;
