//! The programs that join a block to their process by a pipe.
#![tactic(auto)]

mod output;
mod pipes;
mod programs;
mod putting;
mod side;

pub use pipes::{close_end, close_ends, make_pipe, start_at};
pub use programs::backtick::backtick;
pub use programs::pipeline::pipeline;
pub use putting::{badly_named, names_well, puts_values, value_pairs};
pub use side::Side;
