//! The buffer of a list of words.
ghost use Rattle.std.specs.Prelude.{◌≡◌, ◌<◌, ◌≤◌, ◌^◌, [], ◌∷◌, ◌++◌, length, drop, nat_le, sum_by, All, Any, Contains, OnOk, OnErr, slice_index_or, slice_range, IsTrue, ◌↔◌};
ghost use Rattle.std.specs.Iterator.Runs.{YieldsRefsInOrder};
ghost use Rattle.std.specs.List.{concat};
ghost use Rattle.std.specs.List.Sorted.{IsNonDecreasing};
ghost use Rattle.memchr.specs.Find.{IsFirst};
ghost use Rattle.el_words.specs.Word.{HasNul, HoldsByteAt, YieldsFirstWord};
ghost use Rattle.el_words.specs.Words.{slices, start_at, word_ends, IsCut, IsSound};

use super::WordsIter;
use crate::NoMemory;
use memchr::memchr;
use std::alloc::Global;
use std::marker::Model;

/// Where the words of a list lie. A contract sees the list of their bytes.
#[derive(Drop)]
pub(super) struct Buffer {
    // The words one after another, without NUL, and where each of them ends.
    bytes: Vec<u8>,
    ends: Vec<usize>,
    // Those before this one were dropped. Their bytes stay until the list itself goes.
    first: usize,
    // Those before this one were looked at: of them the ones that are left hold no `$`.
    plain: usize,
}

impl Model for Buffer {
    ghost use Rattle.std.specs.Prelude.{List, ℕ, ◌-◌, drop};
    ghost use Rattle.el_words.specs.Words.{slices, IsSound};
    ghost use Rattle.el_words.specs.Plain.{ArePlain};

    ghost Value = { List (List ℕ) };

    ghost view = { λ w. drop w.first (slices w.bytes.items 0 w.ends.items) };

    ghost invariant = { λ w. IsSound w.bytes.items w.ends.items w.first
        × ArePlain (drop w.first (slices w.bytes.items 0 w.ends.items)) (w.plain - w.first) };
}

impl Buffer {
    /// No words. Later pushes take their memory from `alloc`.
    pub(super) fn new(alloc: Global) -> Buffer
        ensures { result ≡ [] }
    {
        Buffer {
            bytes: Vec::new(alloc),
            ends: Vec::new(alloc),
            first: 0,
            plain: 0,
        }
    }

    /// Words that lie in `bytes` one after another, up to these ends.
    pub(super) fn of(bytes: Vec<u8>, ends: Vec<usize>) -> Buffer
        requires { IsSound bytes.items ends.items 0 }
        ensures { result ≡ slices bytes.items 0 ends.items }
    {
        Buffer {
            bytes,
            ends,
            first: 0,
            plain: 0,
        }
    }

    /// How many words there are. Their bytes together are fewer than 2^63, and so are the words.
    pub(super) fn len(&self) -> usize
        ensures count { result ≡ length self.now }
        ensures few { length self.now < 2 ^ 63 }
        ensures bounded { sum_by length self.now < 2 ^ 63 }
    {
        self.ends.len() - self.first
    }

    /// Whether there is no word.
    pub(super) fn is_empty(&self) -> bool
        ensures { IsTrue result ↔ (self.now ≡ []) }
    {
        self.first == self.ends.len()
    }

    /// The bytes of the word at `place`, which must be below the length. None of them is NUL.
    pub(super) fn at(&self, place: usize) -> &[u8]
        requires { place < length self.now }
        ensures same { result.now ≡ slice_index_or self.now place [] }
        ensures no_nul { HasNul result.now → ⊥ }
    {
        let place = self.first + place;
        &self.bytes[start_of(&self.ends, place)..self.ends[place]]
    }

    /// The words in their order. None of them holds a NUL.
    pub(super) fn iter(&self) -> WordsIter<'_>
        ensures rest { result ≡ self.now }
        ensures no_nul { All (λ word. HasNul word → ⊥) self.now }
        ensures few { length self.now < 2 ^ 63 }
        ensures runs { YieldsRefsInOrder YieldsFirstWord (λ rest. rest) }
    {
        WordsIter::new(
            &self.bytes,
            &self.ends[self.first..],
            start_of(&self.ends, self.first),
        )
    }

    /// Whether some word holds `byte`: one scan of the bytes.
    pub(super) fn holds(&self, byte: u8) -> bool
        ensures { IsTrue result ↔ Any (λ word. Contains word byte) self.now }
    {
        memchr(byte, self.joined()).is_some()
    }

    /// The first place at or after `from` whose word holds `byte`, or None exactly where there is none.
    /// One scan of the bytes from there on finds it; `from` must be at most the length.
    pub(super) fn next_holding(&self, from: usize, byte: u8) -> Option<usize>
        requires { from ≤ length self.now }
        ensures first { IsFirst (HoldsByteAt self.now byte) from (length self.now) result }
        ensures few { length self.now < 2 ^ 63 }
    {
        let start = start_of(&self.ends, self.first + from);
        let at = start + memchr(byte, &self.bytes[start..])?;
        Some(from + ending_by(&self.ends[self.first + from..], at))
    }

    /// The first place whose word holds a `$`, or None exactly where none does. It is remembered, so that words
    /// that were looked at once aren't looked at again.
    pub(super) fn first_dollar(&mut self) -> Option<usize>
        ensures first { IsFirst (HoldsByteAt self.old 36) 0 (length self.old) result }
        ensures same { self.new ≡ self.old }
    {
        let found = self.next_holding(self.plain.saturating_sub(self.first), b'$');
        self.plain = self.first + found.unwrap_or(self.len());
        found
    }

    /// Puts a copy of `word`, which holds no NUL, last. After an error the words are as before.
    pub(super) fn push(&mut self, word: &[u8]) -> Result<(), NoMemory>
        requires { HasNul word.now → ⊥ }
        ensures ok { OnOk result (self.new ≡ self.old ++ word.now ∷ []) }
        ensures err { OnErr result (self.new ≡ self.old) }
    {
        self.ends.reserve(1)?;
        self.bytes.extend_from_slice(word)?;
        self.ends.push_reserved(self.bytes.len());
        Ok(())
    }

    /// Takes the first `count` words away; there must be so many.
    pub(super) fn drop_front(&mut self, count: usize)
        requires { count ≤ length self.old }
        ensures { self.new ≡ drop count self.old }
    {
        self.first += count;
    }

    // The bytes of the words, one word after another.
    fn joined(&self) -> &[u8]
        ensures { result.now ≡ concat self.now }
    {
        &self.bytes[start_of(&self.ends, self.first)..]
    }

    // The bytes of the words from `from` to before `to`, one word after another.
    pub(super) fn joined_between(&self, from: usize, to: usize) -> &[u8]
        requires order { from ≤ to }
        requires within { to ≤ length self.now }
        ensures same { result.now ≡ concat (slice_range self.now from to) }
        ensures no_nul { HasNul result.now → ⊥ }
    {
        let start = start_of(&self.ends, self.first + from);
        let end = start_of(&self.ends, self.first + to);
        &self.bytes[start..end]
    }

    // Where the words from `from` to before `to` end, and before these where the first starts.
    pub(super) fn ends_between(&self, from: usize, to: usize) -> (usize, &[usize])
        requires order { from ≤ to }
        requires within { to ≤ length self.now }
        ensures { result.1.now ≡ word_ends result.0 (slice_range self.now from to) }
    {
        let start = start_of(&self.ends, self.first + from);
        (start, &self.ends[self.first + from..self.first + to])
    }
}

// Where the word at `place` starts, of those that end at `ends`.
fn start_of(ends: &[usize], place: usize) -> usize
    requires { place ≤ length ends.now }
    ensures { result ≡ start_at 0 ends.now place }
{
    match place.checked_sub(1) {
        Some(before) => ends[before],
        None => 0,
    }
}

// How many of the rising `ends` are at most `place`.
fn ending_by(ends: &[usize], place: usize) -> usize
    requires { IsNonDecreasing ends.now }
    ensures { IsCut place ends.now result }
{
    ends.partition_point(
        |end: &usize| -> bool
            ensures { result ≡ nat_le end.now place }
        { *end <= place },
    )
}
