//! Option letters, and the table of those of a program.

/// An option letter.
#[derive(Clone, Copy, PartialEq, Eq)]
pub struct Opt {
    pub letter: u8,
    /// Whether it takes a value.
    pub takes: bool,
}

/// The option letters of a program.
#[derive(Clone, Copy)]
pub struct Table<const N: usize> {
    pub opts: [Opt; N],
}
