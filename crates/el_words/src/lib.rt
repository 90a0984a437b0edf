//! The values that every other crate speaks of: words without NUL bytes, lists of them, numbers as
//! text, sets of bytes, and the programs by name.
#![tactic(auto)]

mod byte_set;
mod bytes;
mod inline_bytes;
pub mod laws;
mod memory;
mod number;
mod prog;
mod storage;
mod word;
mod words;

pub use byte_set::ByteSet;
pub use bytes::Bytes;
pub use memory::NoMemory;
pub use number::{are_digits, parse_u64, put_u64};
pub use prog::{Prog, name_of};
pub use word::{Word, WordFault};
pub use words::{Room, Words, WordsIter};
