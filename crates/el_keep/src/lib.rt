//! Layouts that keep the comments and the empty lines of a script.
#![tactic(auto)]

mod distance;
mod gap;
mod keeping;
pub mod laws;
mod part;
mod place;
mod seam;
mod widening;

pub use keeping::{keep, keep_wider};
