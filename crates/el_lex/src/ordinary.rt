//! Bytes that mean themselves.
ghost use Rattle.std.specs.Prelude.{◌≡◌, ◌≤◌, length, drop};
ghost use Rattle.std.specs.List.{prefix_len};
ghost use Rattle.el_words.specs.Word.{HasNul};
ghost use Rattle.el_lex.specs.Ordinary.{is_ordinary, ordinary_run};

use crate::cursor::Cursor;

/// Where bytes stand.
#[derive(Clone, Copy)]
pub(crate) enum Inside {
    Comment,
    Word,
    Quotes,
}

impl Inside {
    /// Whether `byte` only stands for itself there. A NUL and a newline never do.
    fn has_ordinary(self, byte: u8) -> bool
        ensures { result ≡ is_ordinary self byte }
    {
        match self {
            Inside::Comment => !matches!(byte, 0 | b'\n'),
            // Most bytes stand above the quote, and take two comparisons.
            Inside::Word => {
                byte != b'\\'
                    && (byte > b'"' || !matches!(byte, 0 | b'\t' | b'\n' | b'\r' | b' ' | b'"'))
            }
            Inside::Quotes => !matches!(byte, 0 | b'\n' | b'"' | b'\\'),
        }
    }
}

impl<'a> Cursor<'a> {
    /// Takes the longest run of ordinary bytes in front, which may be empty.
    #[inline]
    pub(crate) fn ordinary(&mut self, inside: Inside) -> &'a [u8]
        ensures run { result.now ≡ ordinary_run inside self.old.rest.now }
        ensures no_nul { HasNul result.now → ⊥ }
        ensures rest { self.new.rest.now ≡ drop (length (ordinary_run inside self.old.rest.now)) self.old.rest.now }
        ensures line { self.new.line ≡ self.old.line }
    {
        let (run, rest) = self.rest.split_at(count_ordinary(self.rest, inside));
        self.rest = rest;
        run
    }
}

/// How many ordinary bytes stand in front.
#[inline]
fn count_ordinary(bytes: &[u8], inside: Inside) -> usize
    ensures count { result ≡ prefix_len (is_ordinary inside) bytes.now }
    ensures within { result ≤ length bytes.now }
{
    bytes
        .iter()
        .take_while(|byte| inside.has_ordinary(**byte))
        .count()
}
