//! What the letters that were read say, as far as the reader asks.
ghost use Rattle.std.specs.Prelude.{◌≡◌};
ghost use Rattle.el_reader.specs.Roles.{seen_letter, both_seen};

/// Which letters were read.
#[derive(Clone, Copy, Default)]
pub(crate) struct LettersSeen {
    /// Any.
    pub(crate) any: bool,
    /// `s`, by which a value is split.
    pub(crate) split: bool,
    /// `i` or `D`, by which a value isn't missing.
    pub(crate) default: bool,
    /// `E`, by which a value is put in.
    pub(crate) puts: bool,
}

impl LettersSeen {
    /// This one letter.
    pub(crate) fn letter(letter: u8) -> LettersSeen
        ensures { result ≡ seen_letter letter }
    {
        LettersSeen {
            any: true,
            split: letter == b's',
            default: letter == b'i' || letter == b'D',
            puts: letter == b'E',
        }
    }

    /// These letters and those.
    pub(crate) fn and(self, more: LettersSeen) -> LettersSeen
        ensures { result ≡ both_seen self more }
    {
        LettersSeen {
            any: self.any || more.any,
            split: self.split || more.split,
            default: self.default || more.default,
            puts: self.puts || more.puts,
        }
    }
}
