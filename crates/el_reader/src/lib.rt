//! The one reader of scripts as trees: it judges each token, and makes the tree.
#![tactic(auto)]

mod builder;
mod faults;
mod head;
mod inspection;
pub mod laws;
mod level;
mod member;
mod members;
mod next;
mod options;
mod parsing;
mod reader;
mod role;
mod scope;
mod seen;
mod token_reader;
mod tree_fault;

pub use inspection::Inspection;
pub use next::token_line;
pub use parsing::parse;
pub use reader::{Misread, Reader, read_tree};
pub use scope::FixedPlaces;
pub use token_reader::TokenReader;
pub use tree_fault::{TreeFault, TreeKind};
