//! execlineb, elcheck, elfmt and the top call, over a World.
#![tactic(auto)]

mod asked;
mod file;
pub mod laws;
mod names;
mod options;
mod output;
mod params;
mod process;
mod programs;
mod refusal;
mod samples;
mod script;
mod tallies;

pub use el_world::Finish;
pub use names::base_name;
pub use programs::elcheck::elcheck;
pub use programs::elfmt::elfmt;
pub use programs::execline::execline;
pub use programs::execlineb::execlineb;
pub use samples::{MAX_SAMPLE, sample};
