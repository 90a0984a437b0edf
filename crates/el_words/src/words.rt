//! Lists of words, in one buffer.
ghost use Rattle.std.specs.Prelude.{◌≡◌, ◌<◌, ◌≤◌, ◌^◌, [], ◌∷◌, ◌++◌, length, drop, sum_by, All, Any, Contains, IfOk, OnOk, OnErr, slice_get, slice_index_or, slice_range, IsTrue, ◌↔◌};
ghost use Rattle.std.specs.Iterator.Runs.{YieldsRefsInOrder};
ghost use Rattle.std.specs.List.{concat};
ghost use Rattle.std.specs.Option.{option_copied};
ghost use Rattle.memchr.specs.Find.{IsFirst};
ghost use Rattle.el_words.specs.Word.{HasNul, HoldsByteAt, YieldsFirstWord};
ghost use Rattle.el_words.specs.Words.{word_ends};

use crate::NoMemory;
use std::alloc::Global;
use std::marker::Model;

mod buffer;
mod iter;
mod room;

use buffer::Buffer;
pub use iter::WordsIter;
pub use room::Room;

// For how many bytes and words a list takes room with its first word.
const FIRST_BYTES: usize = 24;

const FIRST_WORDS: usize = 3;

/// A list of words: an argument vector. A contract sees the list of their bytes.
#[derive(Drop)]
pub struct Words {
    alloc: Global,
    // None in a list that never held a word, as most lists of a program's options don't: it takes no memory.
    buffer: Option<Box<Buffer>>,
}

impl Model for Words {
    ghost use Rattle.std.specs.Prelude.{List, ℕ};
    ghost use Rattle.el_words.specs.Words.{buffered};

    ghost Value = { List (List ℕ) };

    ghost view = { λ w. buffered w.buffer };
}

impl Words {
    /// No words. Later pushes take their memory from `alloc`.
    pub fn new(alloc: Global) -> Words
        ensures { result ≡ [] }
    {
        Words {
            alloc,
            buffer: None,
        }
    }

    /// How many words there are. Their bytes together are fewer than 2^63, and so are the words.
    pub fn len(&self) -> usize
        ensures count { result ≡ length self.now }
        ensures few { length self.now < 2 ^ 63 }
        ensures bounded { sum_by length self.now < 2 ^ 63 }
    {
        match &self.buffer {
            Some(buffer) => buffer.len(),
            None => 0,
        }
    }

    /// Whether there is no word.
    pub fn is_empty(&self) -> bool
        ensures { IsTrue result ↔ (self.now ≡ []) }
    {
        match &self.buffer {
            Some(buffer) => buffer.is_empty(),
            None => true,
        }
    }

    /// The bytes of the word at `place`, or None exactly where `place` is at least the length.
    pub fn get(&self, place: usize) -> Option<&[u8]>
        ensures { option_copied result ≡ slice_get self.now place }
    {
        if place < self.len() {
            Some(self.at(place))
        } else {
            None
        }
    }

    /// The bytes of the first word, or None exactly where there is none.
    pub fn first(&self) -> Option<&[u8]>
        ensures { option_copied result ≡ slice_get self.now 0 }
    {
        self.get(0)
    }

    /// The bytes of the word at `place`, which must be below the length. None of them is NUL.
    pub fn at(&self, place: usize) -> &[u8]
        requires { place < length self.now }
        ensures same { result.now ≡ slice_index_or self.now place [] }
        ensures no_nul { HasNul result.now → ⊥ }
    {
        match &self.buffer {
            Some(buffer) => buffer.at(place),
            None => unreachable!(),
        }
    }

    /// The words in their order. None of them holds a NUL.
    pub fn iter(&self) -> WordsIter<'_>
        ensures rest { result ≡ self.now }
        ensures no_nul { All (λ word. HasNul word → ⊥) self.now }
        ensures few { length self.now < 2 ^ 63 }
        ensures runs { YieldsRefsInOrder YieldsFirstWord (λ rest. rest) }
    {
        match &self.buffer {
            Some(buffer) => buffer.iter(),
            None => WordsIter::new(&[], &[], 0),
        }
    }

    /// Whether some word holds `byte`: one scan of the bytes.
    pub fn holds(&self, byte: u8) -> bool
        ensures { IsTrue result ↔ Any (λ word. Contains word byte) self.now }
    {
        match &self.buffer {
            Some(buffer) => buffer.holds(byte),
            None => false,
        }
    }

    /// The first place at or after `from` whose word holds `byte`, or None exactly where there is none.
    /// One scan of the bytes from there on finds it; `from` must be at most the length.
    pub fn next_holding(&self, from: usize, byte: u8) -> Option<usize>
        requires { from ≤ length self.now }
        ensures first { IsFirst (HoldsByteAt self.now byte) from (length self.now) result }
        ensures few { length self.now < 2 ^ 63 }
    {
        match &self.buffer {
            Some(buffer) => buffer.next_holding(from, byte),
            None => None,
        }
    }

    /// The first place whose word holds a `$`, or None exactly where none does. It is remembered, so that words
    /// that were looked at once aren't looked at again.
    pub fn first_dollar(&mut self) -> Option<usize>
        ensures first { IsFirst (HoldsByteAt self.old 36) 0 (length self.old) result }
        ensures same { self.new ≡ self.old }
    {
        match &mut self.buffer {
            Some(buffer) => buffer.first_dollar(),
            None => None,
        }
    }

    /// How many bytes the words from `from` to before `to` have together, without a look at each.
    /// `from` must be at most `to`, and this at most the length.
    pub fn bytes_between(&self, from: usize, to: usize) -> usize
        requires order { from ≤ to }
        requires within { to ≤ length self.now }
        ensures { result ≡ sum_by length (slice_range self.now from to) }
    {
        self.joined_between(from, to).len()
    }

    /// Puts a copy of `word`, which holds no NUL, last. After an error the words are as before.
    pub fn push(&mut self, word: &[u8]) -> Result<(), NoMemory>
        requires { HasNul word.now → ⊥ }
        ensures ok { OnOk result (self.new ≡ self.old ++ word.now ∷ []) }
        ensures err { OnErr result (self.new ≡ self.old) }
    {
        if let Some(buffer) = &mut self.buffer {
            return buffer.push(word);
        }
        self.buffer = Some(buffer_of(self.alloc, word)?);
        Ok(())
    }

    /// Takes the first `count` words away; there must be so many.
    pub fn drop_front(&mut self, count: usize)
        requires { count ≤ length self.old }
        ensures { self.new ≡ drop count self.old }
    {
        if let Some(buffer) = &mut self.buffer {
            buffer.drop_front(count);
        }
    }

    /// The same words again, without what was dropped before them. All memory is taken before the first is copied.
    pub fn copy(&self) -> Result<Words, NoMemory>
        ensures { IfOk result (λ words. words ≡ self.now) }
    {
        if self.is_empty() {
            return Ok(Words::new(self.alloc));
        }
        let len = self.len();
        let mut room = Room::with(self.alloc, len, self.bytes_between(0, len))?;
        room.append(self, 0, len);
        Ok(room.into_words())
    }

    /// The bytes of the words from `from` to before `to`, one word after another. None of them is NUL.
    /// `from` must be at most `to`, and this at most the length.
    pub fn joined_between(&self, from: usize, to: usize) -> &[u8]
        requires order { from ≤ to }
        requires within { to ≤ length self.now }
        ensures same { result.now ≡ concat (slice_range self.now from to) }
        ensures no_nul { HasNul result.now → ⊥ }
    {
        match &self.buffer {
            Some(buffer) => buffer.joined_between(from, to),
            None => &[],
        }
    }

    /// Where the words from `from` to before `to` end, and before these where the first starts: as byte
    /// places in the list's own buffer, so that only their differences mean something to a caller.
    /// `from` must be at most `to`, and this at most the length.
    pub fn ends_between(&self, from: usize, to: usize) -> (usize, &[usize])
        requires order { from ≤ to }
        requires within { to ≤ length self.now }
        ensures { result.1.now ≡ word_ends result.0 (slice_range self.now from to) }
    {
        match &self.buffer {
            Some(buffer) => buffer.ends_between(from, to),
            None => (0, &[]),
        }
    }
}

// A buffer for a list's first word, with room for as much as most lists hold.
#[inline(never)]
fn buffer_of(alloc: Global, word: &[u8]) -> Result<Box<Buffer>, NoMemory>
    requires { HasNul word.now → ⊥ }
    ensures { IfOk result (λ buffer. buffer.value ≡ word.now ∷ []) }
{
    let bytes = Vec::with_capacity(alloc, word.len().max(FIRST_BYTES))?;
    let ends = Vec::with_capacity(alloc, FIRST_WORDS)?;
    let mut buffer = Buffer::of(bytes, ends);
    buffer.push(word)?;
    Ok(Box::new(alloc, buffer)?)
}

impl<'a> IntoIterator for &'a Words {
    type Item = &'a [u8];

    type IntoIter = WordsIter<'a>;

    ghost into_iter_gives = { λ words it. (it ≡ words.now) × (length words.now < 2 ^ 63)
        × All (λ word. HasNul word → ⊥) words.now
        × YieldsRefsInOrder YieldsFirstWord (λ rest. rest) };

    fn into_iter(self) -> WordsIter<'a> {
        self.iter()
    }
}
