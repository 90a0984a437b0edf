//! How blocks stand in a flat list of words: the spelling by leading spaces, and its inverse.
#![tactic(auto)]

mod block;
mod fault;
pub mod laws;
mod speller;
mod spelling;

pub use block::{Unterminated, block_len, block_len_at, first_unquoted, unspell_at, unspell_front};
pub use fault::SpellFault;
pub use speller::MAX_LEVELS;
pub use spelling::spell;
