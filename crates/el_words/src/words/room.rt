//! Words in the making, with room that is taken once.
ghost use Rattle.std.specs.Prelude.{◌≡◌, ◌<◌, ◌≤◌, ◌+◌, ◌-◌, ◌^◌, [], ◌∷◌, ◌++◌, length, map, sum_by, slice_range, All, IfOk, vec_len, vec_capacity};
ghost use Rattle.el_words.specs.Word.{HasNul};

use super::{Buffer, Words};
use crate::NoMemory;
use std::alloc::Global;
use std::marker::Model;

/// Words in the making, with room that is taken once: pushes within it can't fail. A contract sees
/// the words so far, and how many words and bytes there is room for.
#[derive(Drop)]
pub struct Room {
    // Where the words will lie: an empty one till then.
    buffer: Box<Buffer>,
    bytes: Vec<u8>,
    ends: Vec<usize>,
    spare_words: usize,
    spare_bytes: usize,
}

impl Model for Room {
    ghost use Rattle.std.specs.Prelude.{◌+◌, ◌≤◌, vec_len, vec_capacity};
    ghost use Rattle.el_words.specs.Words.{slices, IsSound};
    ghost use Rattle.el_words.specs.Room.{Filling};

    ghost Value = { Filling };

    ghost view = { λ r. record {
      words = slices r.bytes.items 0 r.ends.items;
      spare_words = r.spare_words;
      spare_bytes = r.spare_bytes;
    } };

    ghost invariant = { λ r. IsSound r.bytes.items r.ends.items 0
        × (vec_len r.ends + r.spare_words ≤ vec_capacity r.ends)
        × (vec_len r.bytes + r.spare_bytes ≤ vec_capacity r.bytes) };
}

impl Room {
    /// No words so far, and room for `words` of them with `bytes` bytes together.
    pub fn with(alloc: Global, words: usize, bytes: usize) -> Result<Room, NoMemory>
        ensures empty { IfOk result (λ room. room.words ≡ []) }
        ensures words { IfOk result (λ room. words ≤ room.spare_words) }
        ensures bytes { IfOk result (λ room. bytes ≤ room.spare_bytes) }
    {
        Ok(Room {
            buffer: Box::new(alloc, Buffer::new(alloc))?,
            bytes: Vec::with_capacity(alloc, bytes)?,
            ends: Vec::with_capacity(alloc, words)?,
            spare_words: words,
            spare_bytes: bytes,
        })
    }

    /// How many more words there is room for.
    pub fn spare_words(&self) -> usize
        ensures { result ≡ self.now.spare_words }
    {
        self.spare_words
    }

    /// How many more bytes there is room for.
    pub fn spare_bytes(&self) -> usize
        ensures { result ≡ self.now.spare_bytes }
    {
        self.spare_bytes
    }

    /// Puts a copy of `word`, which holds no NUL, last, for which there must be room. Takes no memory.
    pub fn push(&mut self, word: &[u8])
        requires no_nul { HasNul word.now → ⊥ }
        requires one_more { 0 < self.old.spare_words }
        requires fits { length word.now ≤ self.old.spare_bytes }
        ensures words { self.new.words ≡ self.old.words ++ word.now ∷ [] }
        ensures spare_words { self.new.spare_words + 1 ≡ self.old.spare_words }
        ensures spare_bytes { self.new.spare_bytes + length word.now ≡ self.old.spare_bytes }
    {
        append(&mut self.bytes, word);
        self.ends.push_reserved(self.bytes.len());
        self.spare_words -= 1;
        self.spare_bytes -= word.len();
    }

    /// Puts copies of the words from `from` to before `to` last, in bulk, for which there must be room;
    /// `from` must be at most `to`, and this at most their number. Takes no memory.
    pub fn append(&mut self, words: &Words, from: usize, to: usize)
        requires order { from ≤ to }
        requires within { to ≤ length words.now }
        requires fits_words { to - from ≤ self.old.spare_words }
        requires fits_bytes { sum_by length (slice_range words.now from to) ≤ self.old.spare_bytes }
        ensures words { self.new.words ≡ self.old.words ++ slice_range words.now from to }
        ensures spare_words { self.new.spare_words + (to - from) ≡ self.old.spare_words }
        ensures spare_bytes { self.new.spare_bytes + sum_by length (slice_range words.now from to) ≡ self.old.spare_bytes }
    {
        let more = words.joined_between(from, to);
        let (start, ends) = words.ends_between(from, to);
        append_ends(&mut self.ends, ends, start, self.bytes.len());
        append(&mut self.bytes, more);
        self.spare_words -= to - from;
        self.spare_bytes -= more.len();
    }

    /// The words. Takes no memory.
    pub fn into_words(self) -> Words
        ensures { result ≡ self.words }
    {
        let Room {
            mut buffer,
            bytes,
            ends,
            ..
        } = self;
        let alloc = *bytes.allocator();
        *buffer = Buffer::of(bytes, ends);
        Words {
            alloc,
            buffer: Some(buffer),
        }
    }
}

// Puts all of `more` behind, for which there is room.
fn append(bytes: &mut Vec<u8>, more: &[u8])
    requires { vec_len bytes.old + length more.now ≤ vec_capacity bytes.old }
    ensures items { bytes.new.items ≡ bytes.old.items ++ more.now }
    ensures len { vec_len bytes.new ≡ vec_len bytes.old + length more.now }
    ensures capacity { vec_capacity bytes.old ≤ vec_capacity bytes.new }
{
    let _ = bytes.extend_from_slice(more);
}

// Puts these ends behind, for which there is room, as counted from `base` where they count from
// `start`, which is above none of them.
fn append_ends(ends: &mut Vec<usize>, more: &[usize], start: usize, base: usize)
    requires room { vec_len ends.old + length more.now ≤ vec_capacity ends.old }
    requires bounds { All (λ end. (start ≤ end) × (end - start + base < 2 ^ 64)) more.now }
    ensures items { ends.new.items ≡ ends.old.items ++ map (λ end. end - start + base) more.now }
    ensures len { vec_len ends.new ≡ vec_len ends.old + length more.now }
    ensures capacity { vec_capacity ends.old ≤ vec_capacity ends.new }
{
    for end in more {
        ends.push_reserved(*end - start + base);
    }
}
