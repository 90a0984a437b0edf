//! The kinds of places, at which a program reads words and blocks.
ghost use Rattle.std.specs.Prelude.{◌≡◌};
ghost use Rattle.el_options.specs.Fronts.{is_number_text};

use el_words::are_digits;

/// What stands at a place of a program.
#[derive(Clone, Copy, PartialEq, Eq)]
pub enum PlaceKind {
    /// A name.
    Name,
    /// One word.
    Fixed,
    /// A block that is a program of its own.
    ProgramBlock,
    /// A block of values.
    ValueBlock,
    /// A block of names.
    NameBlock,
    /// A block of directives.
    DirectiveBlock,
    /// A number that may be missing.
    OptionalNumber,
    /// A word that may be missing.
    OptionalWord,
}

/// Whether a word is one digit or more, and nothing else.
pub fn is_number_text(word: &[u8]) -> bool
    ensures { result ≡ is_number_text word.now }
{
    !word.is_empty() && are_digits(word)
}
