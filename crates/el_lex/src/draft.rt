//! A word in the making.
ghost use Rattle.std.specs.Prelude.{◌≡◌, ◌<◌, [], ◌∷◌, ◌++◌, IfOk, OnOk};
ghost use Rattle.el_words.specs.Word.{HasNul};
ghost use Rattle.el_lex.specs.declared.token.Token.TheVariants.{Word as word_token};

use crate::Token;
use el_words::{NoMemory, Word};
use std::alloc::Global;

/// A word in the making, and the line on which it began.
#[derive(Drop)]
pub(crate) struct Draft {
    pub(crate) bytes: Word,
    pub(crate) line: u32,
}

impl Draft {
    /// A word that begins with `bytes`, which hold no NUL.
    #[inline]
    pub(crate) fn of(alloc: Global, bytes: &[u8], line: u32) -> Result<Draft, NoMemory>
        requires { HasNul bytes.now → ⊥ }
        ensures bytes { IfOk result (λ draft. draft.bytes ≡ bytes.now) }
        ensures line { IfOk result (λ draft. draft.line ≡ line) }
    {
        Ok(Draft {
            bytes: Word::of(alloc, bytes)?,
            line,
        })
    }

    /// Puts `byte` last, which isn't NUL.
    #[inline]
    pub(crate) fn push(&mut self, byte: u8) -> Result<(), NoMemory>
        requires { 0 < byte }
        ensures bytes { OnOk result (self.new.bytes ≡ self.old.bytes ++ byte ∷ []) }
        ensures line { self.new.line ≡ self.old.line }
    {
        self.bytes.push(byte)
    }

    /// Puts all of `more` behind, which holds no NUL.
    #[inline]
    pub(crate) fn append(&mut self, more: &[u8]) -> Result<(), NoMemory>
        requires { HasNul more.now → ⊥ }
        ensures bytes { OnOk result (self.new.bytes ≡ self.old.bytes ++ more.now) }
        ensures line { self.new.line ≡ self.old.line }
    {
        self.bytes.append(more)
    }

    /// The word as it stands, without a copy.
    pub(crate) fn into_token(self) -> Token
        ensures { result ≡ word_token self.line self.bytes }
    {
        Token::Word {
            word: self.bytes,
            line: self.line,
        }
    }
}
