//! Scripts as trees: which are well formed, which are accepted, what values change in them, and the laws of reading them.
#![tactic(auto)]

mod fault;
mod items;
pub mod laws;
mod mark;
mod nth;
mod tree;
mod upgrading;

pub use fault::{Fault, PlacedFault};
pub use items::{Arg, Args, Group};
pub use mark::Mark;
pub use tree::{Directive, Directives, Last, Node, Nodes, Place, Places, Tree};
pub use upgrading::upgrade;
