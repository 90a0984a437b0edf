//! Where one stands in a text.
ghost use Rattle.std.specs.Prelude.{◌≡◌};
ghost use Rattle.el_keep.specs.Parts.{word_place, next_place, is_between, is_in};

/// Where one stands behind some bytes of a script.
#[derive(Clone, Copy)]
pub(crate) enum Place {
    /// Between words.
    Gap,
    /// In a comment.
    Comment,
    /// In a word.
    Word,
    /// Behind a backslash of a word.
    Escape,
    /// In the quotes of a word.
    Quotes,
    /// Behind a backslash in quotes.
    QuotedEscape,
}

impl Place {
    /// Where one stands behind the next byte.
    pub(crate) fn next(self, byte: u8) -> Place
        ensures { result ≡ next_place self byte }
    {
        match self {
            Place::Gap => match byte {
                b'#' => Place::Comment,
                _ => word_place(byte),
            },
            Place::Comment => match byte {
                b'\n' => Place::Gap,
                _ => Place::Comment,
            },
            Place::Word => word_place(byte),
            Place::Escape => Place::Word,
            Place::Quotes => match byte {
                b'"' => Place::Word,
                b'\\' => Place::QuotedEscape,
                _ => Place::Quotes,
            },
            Place::QuotedEscape => Place::Quotes,
        }
    }

    /// Whether it is between words, or else within one.
    pub(crate) fn is_in(self, between: bool) -> bool
        ensures { result ≡ is_in between self }
    {
        self.is_between() == between
    }

    fn is_between(self) -> bool
        ensures { result ≡ is_between self }
    {
        matches!(self, Place::Gap | Place::Comment)
    }
}

// Behind a byte of a word, or one that ends it.
fn word_place(byte: u8) -> Place
    ensures { result ≡ word_place byte }
{
    match byte {
        b' ' | b'\t' | b'\n' | b'\r' => Place::Gap,
        b'"' => Place::Quotes,
        b'\\' => Place::Escape,
        _ => Place::Word,
    }
}
