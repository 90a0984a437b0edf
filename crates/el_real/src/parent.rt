//! What this process starts others with.

use crate::binary::Binary;
use el_words::Word;

/// The process that starts others.
#[derive(Drop)]
pub struct Parent {
    /// What it starts where it starts a program of this project.
    pub binary: Binary,
    /// Its directory.
    pub dir: Word,
}
