//! Families of processes, and elfamily, which runs one in memory and tells of it.
#![tactic(auto)]

mod agreement;
mod asked;
mod children;
mod counts;
mod family;
mod growing;
pub mod laws;
mod member;
mod names;
mod program;
mod run;
mod telling;
mod tree;

pub use family::{Family, FamilyFault, MAX_MEMBERS};
pub use member::{Member, Origin, Ran};
pub use program::{End, complaint_of, elfamily, finish_of};
pub use telling::report;
