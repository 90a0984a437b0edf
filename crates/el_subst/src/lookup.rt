//! The pairs of a substitution, ready to be looked up.
ghost use Rattle.std.specs.Prelude.{◌≡◌, ◌∷◌, [], ℕ, List, Contains, IfOk};
ghost use Rattle.std.specs.Option.{option_copied};
ghost use Rattle.el_subst.specs.Values.{words_of, word_value};
ghost use Rattle.el_subst.specs.Index.{IsIndex};
ghost use Rattle.el_subst.specs.Telling.{IsTelling};

use crate::subst::Subst;
use el_words::{NoMemory, Word, Words};
use indexmap::IndexMap;
use std::alloc::Global;
use std::marker::Model;

/// So many pairs are looked through sooner than an index of them.
const FEW: usize = 4;

/// The pairs of a substitution, with an index of their keys where these are many, so that a look-up takes no longer
/// then. A contract sees the list of the pairs.
#[derive(Drop)]
pub struct Lookup<'a> {
    pairs: &'a [(Word, Words)],
    index: Option<Index>,
}

type Index = IndexMap<Vec<u8>, usize>;

impl<'a> Model for Lookup<'a> {
    ghost use Rattle.std.specs.Prelude.{IfSome};
    ghost use Rattle.el_subst.specs.Values.{Pairs};
    ghost use Rattle.el_subst.specs.Index.{IsIndex};

    ghost Value = { Pairs };

    ghost view = { λ l. l.pairs.now };

    ghost invariant = { λ l. IfSome l.index (λ index. IsIndex l.pairs.now index.entries) };
}

impl<'a> Lookup<'a> {
    /// The pairs of `subst`, ready to be looked up.
    pub fn of(alloc: Global, subst: &'a Subst) -> Result<Lookup<'a>, NoMemory>
        ensures { IfOk result (λ lookup. lookup ≡ subst.now) }
    {
        let pairs = subst.pairs();
        if pairs.len() <= FEW {
            return Ok(Lookup { pairs, index: None });
        }
        let index = Some(index_of(alloc, pairs)?);
        Ok(Lookup { pairs, index })
    }

    /// The words of the first pair with this key, or None exactly where no pair has it.
    pub fn words_of(&self, key: &[u8]) -> Option<&'a Words>
        ensures { option_copied result ≡ words_of self.now key.now }
    {
        match &self.index {
            None => first_words(self.pairs, key),
            Some(index) => indexed_words(self.pairs, index, key),
        }
    }

    /// A byte that stands in each word which isn't its own value: where there is one pair the last one of its key, unless
    /// many words hold it, and else `$`.
    pub fn telling_byte(&self) -> u8
        ensures { (word : List ℕ) → (Contains word result → ⊥) → word_value self.now word ≡ word ∷ [] }
    {
        match self.pairs {
            [pair] => last_byte(pair.0.as_bytes()),
            _ => b'$',
        }
    }
}

fn index_of(alloc: Global, pairs: &[(Word, Words)]) -> Result<Index, NoMemory>
    ensures { IfOk result (λ index. IsIndex pairs.now index.entries) }
{
    let mut index = IndexMap::with_capacity(alloc, pairs.len())?;
    for place in (0..pairs.len()).rev() {
        let key = pairs[place].0.as_bytes().to_vec(alloc)?;
        index.insert(key, place)?;
    }
    Ok(index)
}

fn first_words<'a>(pairs: &'a [(Word, Words)], key: &[u8]) -> Option<&'a Words>
    ensures { option_copied result ≡ words_of pairs.now key.now }
{
    for pair in pairs {
        if pair.0.as_bytes() == key {
            return Some(&pair.1);
        }
    }
    None
}

fn indexed_words<'a>(pairs: &'a [(Word, Words)], index: &Index, key: &[u8]) -> Option<&'a Words>
    requires { IsIndex pairs.now index.now.entries }
    ensures { option_copied result ≡ words_of pairs.now key.now }
{
    let place = *index.get(key)?;
    Some(&pairs[place].1)
}

// The last byte of a key, or `$` where it has none or a digit stands there, as in many words.
fn last_byte(key: &[u8]) -> u8
    ensures { IsTelling key.now result }
{
    match key {
        [.., last] if !last.is_ascii_digit() => *last,
        _ => b'$',
    }
}
