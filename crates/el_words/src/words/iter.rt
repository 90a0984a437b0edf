//! The words of a list, one after another.
ghost use Rattle.std.specs.Prelude.{◌≡◌, length};
ghost use Rattle.std.specs.Iterator.{item_count};
ghost use Rattle.el_words.specs.Word.{HasNul, YieldsFirstWord};
ghost use Rattle.el_words.specs.Words.{slices, RiseTo};

use std::marker::Model;
use std::slice;

/// The words of a list in their order, as slices. A contract sees the list of those that are left.
#[derive(Drop)]
pub struct WordsIter<'a> {
    bytes: &'a [u8],
    ends: slice::Iter<'a, usize>,
    // Where the next word starts.
    start: usize,
}

impl<'a> Model for WordsIter<'a> {
    ghost use Rattle.std.specs.Prelude.{List, ℕ, length};
    ghost use Rattle.std.specs.Slice.Iter.{iter_rest};
    ghost use Rattle.el_words.specs.Word.{HasNul};
    ghost use Rattle.el_words.specs.Words.{slices, RiseTo};

    ghost Value = { List (List ℕ) };

    ghost view = { λ it. slices it.bytes.now it.start (iter_rest it.ends) };

    ghost invariant = { λ it. RiseTo it.start (iter_rest it.ends) (length it.bytes.now)
        × (HasNul it.bytes.now → ⊥) };
}

impl<'a> WordsIter<'a> {
    // The words that lie in `bytes` from `start` on, up to these ends.
    pub(super) fn new(bytes: &'a [u8], ends: &'a [usize], start: usize) -> WordsIter<'a>
        requires whole { RiseTo start ends.now (length bytes.now) }
        requires no_nul { HasNul bytes.now → ⊥ }
        ensures { result ≡ slices bytes.now start ends.now }
    {
        WordsIter {
            bytes,
            ends: ends.iter(),
            start,
        }
    }
}

impl<'a> Iterator for WordsIter<'a> {
    type Item = &'a [u8];

    ghost next_gives = { YieldsFirstWord };

    ghost remaining = { item_count (λ rest. rest) };

    fn next(&mut self) -> Option<&'a [u8]> {
        let end = *self.ends.next()?;
        let start = self.start;
        self.start = end;
        Some(&self.bytes[start..end])
    }

    fn size_hint(&self) -> (usize, Option<usize>) {
        self.ends.size_hint()
    }
}
