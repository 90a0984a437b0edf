//! elglob, over a Lister and a World; the real Lister, and one in memory.
#![tactic(auto)]

mod asked;
mod component;
mod fault;
mod globbing;
pub mod laws;
mod list_answers;
mod list_log;
mod listed;
mod lister;
mod matching;
mod names;
mod part;
mod paths;
mod pattern;
mod piece;
mod program;
mod reader;
mod real_lister;
mod refusal;
mod scripted_lister;

pub use component::Component;
pub use fault::PatternFault;
pub use list_answers::{ListAnswer, ListAnswers};
pub use list_log::ListLog;
pub use listed::{ListEvent, ListFault, Listed};
pub use lister::Lister;
pub use pattern::{MAX_PATTERN, Pattern};
pub use program::elglob;
pub use real_lister::RealLister;
pub use scripted_lister::ScriptedLister;
