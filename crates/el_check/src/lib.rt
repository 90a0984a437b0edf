//! The checker: whether a script is accepted, and its first fault where it isn't.
#![tactic(auto)]

mod braces;
mod checking;
mod kind;
pub mod laws;
mod params;
mod parts;
mod survey;

pub use checking::{check, first_fault, parse_script};
pub use kind::{CheckFault, CheckKind};
pub use params::Params;
