//! The crunching, chomping and splitting of values, as the programs' options ask for it, the reading of
//! netstrings, and the values of an input that comes piece by piece.
#![tactic(auto)]

mod crunching;
pub mod laws;
mod netstrings;
mod splitter;
mod splitting;
mod transforming;

pub use netstrings::{Netstring, count_digits, first_netstring, parse_length, read_netstrings};
pub use splitter::Splitter;
pub use transforming::{How, TransformFault, transform};
