//! How many words a key may have.

/// How many words a key may have.
#[derive(Clone, Copy, PartialEq, Eq)]
pub enum Mark {
    /// Exactly one.
    One,
    /// Any number.
    Many,
}
