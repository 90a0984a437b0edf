//! The lexer: a script's text as tokens with their lines.
#![tactic(auto)]

mod base;
mod cursor;
mod draft;
mod escape;
mod fault;
pub mod laws;
mod lexer;
mod ordinary;
mod token;
mod word;

pub use fault::{LexFault, LexKind};
pub use lexer::{Lexer, MAX_PART, MAX_SCRIPT, lex};
pub use token::{Token, Tokens};
