//! What can be wrong with the words of an expression.

/// Why words are no expression.
#[derive(Clone, Copy, Debug, PartialEq, Eq)]
pub enum TestKind {
    /// The words end too early.
    Incomplete,
    /// A word can't stand where it does.
    Unexpected,
    /// An operand is no number.
    BadNumber,
    /// Too many `!` and `(` stand within one another.
    TooDeep,
}

/// A fault and the place of its word; that of `Incomplete` is the number of words.
#[derive(Clone, Copy, Debug, PartialEq, Eq)]
pub struct TestFault {
    pub kind: TestKind,
    pub at: usize,
}
