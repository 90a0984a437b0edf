//! The layout of a tree, and the laws of layouts.
#![tactic(auto)]

pub mod laws;
mod printer;
mod quoting;

pub use printer::print;
