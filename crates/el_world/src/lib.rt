//! The outside as a chain of programs sees it, and one in memory that answers from a list.
#![tactic(auto)]

mod answer;
pub mod call;
mod event;
mod finish;
mod fuse;
pub mod laws;
mod log;
mod scripted;
mod subject;
mod tape;
mod world;

pub use answer::{Answer, Answers};
pub use event::{Ended, Event, Fault, Handle, MAX_PIECE, Mode, Pid, PipeEnds, StartFault};
pub use finish::Finish;
pub use fuse::Fuse;
pub use log::Log;
pub use scripted::Scripted;
pub use subject::Subject;
pub use tape::Tape;
pub use world::World;
