//! A piece of a word: bytes that stay, or a reference with its choices.
ghost use Rattle.std.specs.Prelude.{◌≡◌, ◌<◌, [], length, slice_index_or};
ghost use Rattle.el_words.specs.Word.{HasNul};
ghost use Rattle.el_subst.specs.Pieces.{piece_choices};
ghost use Rattle.el_subst.specs.Sizes.{size_of};

use crate::size::Size;
use crate::text::Text;
use el_words::Words;

/// A piece of a word that references are replaced in.
#[derive(Drop)]
pub enum Piece<'a> {
    /// Bytes that stay.
    Literal(Text<'a>),
    /// A reference in whose place each of these words is put in turn.
    Values(&'a Words),
}

impl Piece<'_> {
    /// How many choices there are.
    pub fn len(&self) -> usize
        ensures { result ≡ length (piece_choices self.now) }
    {
        match self {
            Piece::Literal(_) => 1,
            Piece::Values(words) => words.len(),
        }
    }

    /// The size of all choices.
    pub fn size(&self) -> Size
        ensures { result ≡ size_of (piece_choices self.now) }
    {
        match self {
            Piece::Literal(text) => Size::of_word(text.as_bytes()),
            Piece::Values(words) => Size::of_words(words),
        }
    }

    /// The choice at `place`, which must be below their number.
    pub fn choice(&self, place: usize) -> &[u8]
        requires { place < length (piece_choices self.now) }
        ensures same { result.now ≡ slice_index_or (piece_choices self.now) place [] }
        ensures no_nul { HasNul result.now → ⊥ }
    {
        match self {
            Piece::Literal(text) => text.as_bytes(),
            Piece::Values(words) => words.at(place),
        }
    }
}
