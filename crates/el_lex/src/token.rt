//! Tokens of a script.
ghost use Rattle.std.specs.Prelude.{◌≡◌, ◌<◌, ◌^◌, [], ◌∷◌, ◌++◌, length, OnOk, OnErr, slice_get, IsTrue, ◌↔◌};
ghost use Rattle.std.specs.Option.{option_copied};
ghost use Rattle.std.specs.Slice.Iter.{iter_rest};
ghost use Rattle.std.specs.Vec.Iter.{into_iter_steps, into_iter_items, into_iter_len};
ghost use Rattle.std.specs.Iterator.Runs.{EveryRun, ItemsAre};
ghost use Rattle.std.specs.Iterator.Adapters.{IterYieldsInOrder};
ghost use Rattle.std.specs.declared.alloc.Global.{Global};
ghost use Rattle.el_lex.specs.declared.token.Token.{Token};

use el_words::{NoMemory, Word};
use std::alloc::Global;
use std::marker::Model;
use std::{slice, vec};

/// A token of a script. Its line is one more than the newlines before its first byte.
#[derive(Drop)]
pub enum Token {
    /// Any word but the two below, without its quotes and backslashes. The line stands first, so that a
    /// token takes 24 bytes and not 32.
    Word { line: u32, word: Word },
    /// The one plain byte `{`.
    Open { line: u32 },
    /// The one plain byte `}`.
    Close { line: u32 },
}

/// A list of tokens. A contract sees their list.
#[derive(Drop)]
pub struct Tokens {
    tokens: Vec<Token>,
}

impl Model for Tokens {
    ghost use Rattle.std.specs.Prelude.{List};
    ghost use Rattle.std.specs.Coded.{codes};
    ghost use Rattle.el_lex.specs.declared.token.Token.{Token};
    ghost use Rattle.el_lex.specs.contracts.token.Token as token;

    ghost Value = { List Token };

    ghost coded = { Prim.hlevel (codes, token.the_row.coded) };

    ghost view = { λ t. t.tokens.items };
}

impl Tokens {
    /// No tokens. Later pushes take their memory from `alloc`.
    pub fn new(alloc: Global) -> Tokens
        ensures { result ≡ [] }
    {
        Tokens {
            tokens: Vec::new(alloc),
        }
    }

    /// How many tokens there are.
    pub fn len(&self) -> usize
        ensures { result ≡ length self.now }
    {
        self.tokens.len()
    }

    /// Whether there is none.
    pub fn is_empty(&self) -> bool
        ensures { IsTrue result ↔ (self.now ≡ []) }
    {
        self.tokens.is_empty()
    }

    /// The token at `place`, or None exactly where `place` is at least the length.
    pub fn get(&self, place: usize) -> Option<&Token>
        ensures { option_copied result ≡ slice_get self.now place }
    {
        self.tokens.get(place)
    }

    /// Puts `token` last. After an error the tokens are as before.
    pub fn push(&mut self, token: Token) -> Result<(), NoMemory>
        ensures ok { OnOk result (self.new ≡ self.old ++ token ∷ []) }
        ensures err { OnErr result (self.new ≡ self.old) }
    {
        self.tokens.reserve(1)?;
        self.tokens.push_reserved(token);
        Ok(())
    }

    /// The tokens in order.
    pub fn iter(&self) -> slice::Iter<'_, Token>
        ensures rest { iter_rest result ≡ self.now }
        ensures bound { length (iter_rest result) < 2 ^ 64 }
        ensures runs { IterYieldsInOrder Token }
    {
        self.tokens.iter()
    }
}

impl<'a> IntoIterator for &'a Tokens {
    type Item = &'a Token;

    type IntoIter = slice::Iter<'a, Token>;

    ghost into_iter_gives = { λ tokens it. (iter_rest it ≡ tokens.now) × (length (iter_rest it) < 2 ^ 64)
        × IterYieldsInOrder Token };

    fn into_iter(self) -> slice::Iter<'a, Token> {
        self.iter()
    }
}

/// The tokens themselves, so that a caller can move their words.
impl IntoIterator for Tokens {
    type Item = Token;

    type IntoIter = vec::IntoIter<Token>;

    ghost into_iter_gives = { λ tokens it. (into_iter_items it ≡ tokens)
        × (into_iter_len it ≡ length tokens) × (into_iter_len it < 2 ^ 64)
        × EveryRun (into_iter_steps {X = Token} {Z = Global}) (λ p. ItemsAre p (into_iter_items p.from)) };

    fn into_iter(self) -> vec::IntoIter<Token> {
        self.tokens.into_iter()
    }
}
