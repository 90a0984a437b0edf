//! A process of a chain: its words, variables, descriptors and children, what it complains of, and the
//! children that it starts.
#![tactic(auto)]

mod child;
mod closing;
mod descriptors;
mod gathering;
mod input;
mod kids;
mod kind;
pub mod laws;
mod message;
mod next;
mod process;
mod trouble;
mod usage;

pub use child::{
    KILLED, Started, code_of, first_word, run_child, run_own_child, start_child, tell_unstarted,
};
pub use closing::{close_given, close_handle, close_lost};
pub use descriptors::{FdFault, Fds, NUMBERS};
pub use gathering::{GatherFault, gather, text_or_end};
pub use input::{before_nul, has_nul, input_word};
pub use kids::{Kids, note_kid};
pub use kind::Kind;
pub use message::{complain, refused, refused_as, tell};
pub use next::{Next, next_of};
pub use process::{Proc, take_unit, take_words};
pub use trouble::{FAILED_CALL, NOT_FOUND, NOT_STARTABLE, Trouble, WRONG_USE};
pub use usage::usage_of;
