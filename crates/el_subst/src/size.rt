//! How many words and bytes a list has, counted before it is made.
ghost use Rattle.std.specs.Prelude.{◌≡◌, ◌≤◌, ◌∷◌, ◌++◌, [], List, ℕ, length, slice_range, IfOk};
ghost use Rattle.el_subst.specs.Sizes.{joins, size_of, HasRoom};

use el_words::{NoMemory, Room, Words};
use std::alloc::Global;

/// How many words a list has, and how many bytes they have together. A number that is above the
/// greatest `usize` is counted as this.
#[derive(Clone, Copy)]
pub struct Size {
    words: usize,
    bytes: usize,
}

impl Size {
    /// The size of no words.
    pub fn zero() -> Size
        ensures { result ≡ size_of [] }
    {
        Size { words: 0, bytes: 0 }
    }

    /// The size of `word` alone.
    pub fn of_word(word: &[u8]) -> Size
        ensures { result ≡ size_of (word.now ∷ []) }
    {
        Size {
            words: 1,
            bytes: word.len(),
        }
    }

    /// The size of all these words.
    pub fn of_words(words: &Words) -> Size
        ensures { result ≡ size_of words.now }
    {
        Size {
            words: words.len(),
            bytes: words.iter().map(|word| word.len()).sum(),
        }
    }

    /// The size of the words from `from` to before `to`; `from` must be at most `to`, and this at most
    /// their number.
    pub fn of_part(words: &Words, from: usize, to: usize) -> Size
        requires order { from ≤ to }
        requires within { to ≤ length words.now }
        ensures { result ≡ size_of (slice_range words.now from to) }
    {
        Size {
            words: to - from,
            bytes: words.bytes_between(from, to),
        }
    }

    /// The size of these words and `more`.
    pub fn plus(self, more: Size) -> Size
        ensures { (xs ys : List (List ℕ)) → self ≡ size_of xs → more ≡ size_of ys → result ≡ size_of (xs ++ ys) }
    {
        Size {
            words: self.words.saturating_add(more.words),
            bytes: self.bytes.saturating_add(more.bytes),
        }
    }

    /// The size of each of these words before each of `others`.
    pub fn times(self, others: Size) -> Size
        ensures { (xs ys : List (List ℕ)) → self ≡ size_of xs → others ≡ size_of ys → result ≡ size_of (joins xs ys) }
    {
        let firsts = self.bytes.saturating_mul(others.words);
        let seconds = self.words.saturating_mul(others.bytes);
        Size {
            words: self.words.saturating_mul(others.words),
            bytes: firsts.saturating_add(seconds),
        }
    }

    /// Room for words of this size, or want of memory, where a number of it is above the greatest.
    pub fn room(self, alloc: Global) -> Result<Room, NoMemory>
        ensures empty { IfOk result (λ room. room.words ≡ []) }
        ensures fits { IfOk result (λ room. (xs : List (List ℕ)) → self ≡ size_of xs → HasRoom room xs) }
    {
        if self.words == usize::MAX || self.bytes == usize::MAX {
            return Err(NoMemory);
        }
        Room::with(alloc, self.words, self.bytes)
    }
}
