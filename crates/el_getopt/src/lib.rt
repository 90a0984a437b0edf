//! elgetopt, over a World.
#![tactic(auto)]

mod call;
mod environment;
mod fault;
pub mod laws;
mod optstring;
mod parsing;
mod reader;

pub use call::{elgetopt, elgetopt_name};
