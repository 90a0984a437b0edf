//! Recorded runs: a world that tells what it passed on, and the text of its traces.
#![tactic(auto)]

mod fits;
pub mod laws;
mod parsing;
mod printer;
mod printing;
mod reader;
mod reading;
mod recorder;
mod trace;

pub use fits::log_fits;
pub use parsing::{TraceFault, parse_trace};
pub use printing::print_trace;
pub use recorder::Recorder;
pub use trace::{RunEnd, Trace};
