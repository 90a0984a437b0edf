//! The World over the operating system, what a process of this project is started with, and how it ends.
//!
//! A main of a program over a World collects what the process was given, makes a `RealWorld` of it, makes its call, and
//! ends with its answer:
//!
//!     match collect(&rt, Runner::Beside) {
//!         Ok(Given { words, env, dir, parent, null }) => {
//!             let (input, output, errors) = (rt.stdin(), rt.stdout(), rt.stderr());
//!             let mut world = RealWorld::new(rt, rt.process(), parent, null, input, output, errors);
//!             let finish = call(rt.alloc(), &words, env, dir, &mut world);
//!             end(&rt, "name", finish)
//!         }
//!         Err(lack) => end_without(&rt, "name", lack),
//!     }
#![tactic(auto)]

mod binary;
mod command;
mod ending;
mod given;
mod hint;
mod lack;
pub mod laws;
mod null_streams;
mod parent;
mod real_world;
mod reason;
mod shown;
mod source;
mod start;
mod stream;
mod text;
mod unstartable;
mod unstarted;
mod variables;

pub use binary::Runner;
pub use ending::{complaint_of, end, end_without, status_of};
pub use given::{Given, collect};
pub use lack::Lack;
pub use null_streams::NullStreams;
pub use parent::Parent;
pub use real_world::RealWorld;
pub use reason::system_text;
