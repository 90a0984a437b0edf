//! The descriptor programs. Each is given the front that was read for it.
#![tactic(auto)]

mod numbers;
mod programs;
mod putting;

pub use programs::fdclose::fdclose;
pub use programs::fdmove::fdmove;
pub use programs::fdswap::fdswap;
pub use programs::heredoc::heredoc;
pub use programs::piperw::piperw;
pub use programs::redirfd::redirfd;
