//! What a token is, where it stands, and what it is to a program.
use crate::seen::LettersSeen;
use el_options::PlaceKind;
use el_words::Prog;

/// What a token that isn't wrong is, where it stands.
#[derive(Clone, Copy)]
pub(crate) enum Role {
    /// A word that begins this program, or a directive of it.
    Program(Prog),
    /// A token of the program or directive before it, to which it is this.
    Own(Part),
    /// A word of a command or of a block of values, or one name of a block.
    Item,
    /// An Open: a group among the items of a command or of a block of values.
    Group,
    /// A Close.
    Close,
}

/// What a token is to its program or directive.
#[derive(Clone, Copy)]
pub(crate) enum Part {
    /// The value that a letter waits for.
    Value,
    /// An option word that waits for nothing, and ends the options where it is `--`.
    Option { seen: LettersSeen, ended: bool },
    /// An option word whose last letter waits for its value.
    Waiting { seen: LettersSeen, letter: u8 },
    /// The word at its next place.
    Place,
    /// A block of this kind there.
    Block(PlaceKind),
}
