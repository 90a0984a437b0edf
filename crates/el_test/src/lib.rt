//! eltest, over an Asker; the real Asker, and one in memory.
#![tactic(auto)]

mod ask_answers;
mod ask_log;
mod asker;
mod call;
mod end;
mod fault;
mod given;
pub mod laws;
mod look;
mod names;
mod nobody;
mod operators;
mod real_asker;
mod scripted_asker;
mod standing;
mod system;
mod walk;
mod walker;
mod walking;

pub use ask_answers::{AskAnswer, AskAnswers};
pub use ask_log::AskLog;
pub use asker::{AskEvent, AskFault, Asker};
pub use call::eltest;
pub use end::{TestEnd, show, status_of};
pub use fault::{TestFault, TestKind};
pub use given::words_of;
pub use operators::Question;
pub use real_asker::{OWN_DIRECTORY, RealAsker};
pub use scripted_asker::ScriptedAsker;
