//! The operators of an expression.

/// What may be asked of a path.
#[derive(Clone, Copy, Debug, PartialEq, Eq)]
pub enum Question {
    Exists,
    File,
    Dir,
    Readable,
    Writable,
    Runnable,
    NotEmpty,
    Link,
}

/// An operator before one word.
#[derive(Clone, Copy, PartialEq, Eq)]
pub enum Unary {
    /// `-n`: the word has bytes.
    Filled,
    /// `-z`: the word has none.
    Blank,
    /// A question on the path that the word is.
    Asked(Question),
}

/// What begins a test that is no comparison.
#[derive(Clone, Copy, PartialEq, Eq)]
pub enum Prefix {
    Not,
    Open,
    On(Unary),
}

/// An operator between two words: four on bytes and six on numbers.
#[derive(Clone, Copy, PartialEq, Eq)]
pub enum Binary {
    Same,
    Differs,
    Before,
    Behind,
    Equal,
    Unequal,
    Below,
    AtMost,
    Above,
    AtLeast,
}

/// What may stand behind a test.
#[derive(Clone, Copy, PartialEq, Eq)]
pub enum Joiner {
    And,
    Or,
    Close,
}

pub const BINARIES: [Binary; 10] = [
    Binary::Same,
    Binary::Differs,
    Binary::Before,
    Binary::Behind,
    Binary::Equal,
    Binary::Unequal,
    Binary::Below,
    Binary::AtMost,
    Binary::Above,
    Binary::AtLeast,
];

pub const PREFIXES: [Prefix; 12] = [
    Prefix::Not,
    Prefix::Open,
    Prefix::On(Unary::Filled),
    Prefix::On(Unary::Blank),
    Prefix::On(Unary::Asked(Question::Exists)),
    Prefix::On(Unary::Asked(Question::File)),
    Prefix::On(Unary::Asked(Question::Dir)),
    Prefix::On(Unary::Asked(Question::Readable)),
    Prefix::On(Unary::Asked(Question::Writable)),
    Prefix::On(Unary::Asked(Question::Runnable)),
    Prefix::On(Unary::Asked(Question::NotEmpty)),
    Prefix::On(Unary::Asked(Question::Link)),
];

pub const JOINERS: [Joiner; 3] = [Joiner::And, Joiner::Or, Joiner::Close];
