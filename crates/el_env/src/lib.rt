//! An environment: a finite map from names to words.
#![tactic(auto)]

mod env;
pub mod laws;

pub use env::{Env, EnvFault, Positionals, Variable, is_good_name};
