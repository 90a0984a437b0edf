//! What is found in a script.

use crate::lint::Lint;

/// What may be a mistake, and the line on which its program, its directive or its command begins.
#[derive(Drop)]
pub struct Finding {
    pub line: u32,
    pub lint: Lint,
}
