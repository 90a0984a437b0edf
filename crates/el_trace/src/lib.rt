//! Whether a recorded run is one of its script, and recorded runs as lines.
#![tactic(auto)]

mod agreeing;
mod answer;
mod answers;
mod checking;
mod counts;
pub mod laws;
mod lines;
mod new_handles;
mod replay;
mod same;
mod vector;
mod verdict;

pub use answer::{Shown, bad_trace_shown, trace_answer};
pub use checking::check_run;
pub use lines::trace_lines;
pub use verdict::{RunFault, Verdict};
