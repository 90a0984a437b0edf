//! Bytes of a word, lent.
use std::marker::Model;

/// Bytes that stand in a word, none of which is NUL. A contract sees their list.
#[derive(Drop)]
pub struct Text<'a> {
    bytes: &'a [u8],
}

impl<'a> Model for Text<'a> {
    ghost use Rattle.std.specs.Prelude.{List, ℕ};
    ghost use Rattle.el_words.specs.Word.{HasNul};

    ghost Value = { List ℕ };

    ghost view = { λ t. t.bytes.now };

    ghost invariant = { λ t. HasNul t.bytes.now → ⊥ };
}

impl<'a> Text<'a> {
    ghost use Rattle.std.specs.Prelude.{◌≡◌};
    ghost use Rattle.el_words.specs.Word.{HasNul};

    /// These bytes, which are known to hold no NUL.
    pub fn of(bytes: &'a [u8]) -> Text<'a>
        requires { HasNul bytes.now → ⊥ }
        ensures { result ≡ bytes.now }
    {
        Text { bytes }
    }

    /// The bytes, none of which is NUL.
    pub fn as_bytes(&self) -> &'a [u8]
        ensures same { result.now ≡ self.now }
        ensures no_nul { HasNul self.now → ⊥ }
    {
        self.bytes
    }
}
