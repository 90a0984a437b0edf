//! How far behind the word or the comment before it something stands.
ghost use Rattle.std.specs.Prelude.{◌≡◌};
ghost use Rattle.el_keep.specs.Seams.{further};

/// How far behind the word or the comment before it something stands.
#[derive(Clone, Copy)]
pub(crate) enum Distance {
    /// On the line of a word, or where the text begins.
    SameLine,
    /// On the line of a comment, of which nothing but its end can stand there.
    BehindComment,
    /// On the next line.
    NextLine,
    /// Behind an empty line, or more of them.
    BlankLine,
}

impl Distance {
    /// The distance behind one more byte between words, which is no comment's.
    pub(crate) fn further(self, byte: u8) -> Distance
        ensures { result ≡ further self byte }
    {
        if byte != b'\n' {
            return self;
        }
        match self {
            Distance::SameLine | Distance::BehindComment => Distance::NextLine,
            Distance::NextLine | Distance::BlankLine => Distance::BlankLine,
        }
    }
}
