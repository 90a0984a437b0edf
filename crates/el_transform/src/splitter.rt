//! Splitting an input that comes piece by piece.
ghost use Rattle.std.specs.Prelude.{◌≡◌, ◌≤◌, ◌<◌, ◌-◌, ◌++◌, true, false, length, drop, slice_index, IfOk, OnOk, OnErr};
ghost use Rattle.std.specs.FinSet as set;
ghost use Rattle.el_words.specs.Word.{HasNul};
ghost use Rattle.el_transform.specs.Crunching.{is_delimiter};
ghost use Rattle.el_transform.specs.Splitting.{has_delimiter, last_word};
ghost use Rattle.el_transform.specs.Splitter.{starting, fed, values_of, last_value, IsUnfinished};

use crate::crunching::crunch_behind;
use crate::splitting::split;
use el_words::{ByteSet, NoMemory, Word, Words};
use std::alloc::Global;
use std::marker::Model;

/// The values of an input that comes piece by piece: those that delimiters end, and then the bytes
/// after the last delimiter. It holds the bytes of the unfinished value alone. A contract sees its
/// two settings, these bytes, and whether the last byte fed was a delimiter.
#[derive(Drop)]
pub struct Splitter {
    alloc: Global,
    crunch: bool,
    delims: ByteSet,
    unfinished: Word,
    is_after_delimiter: bool,
}

impl Model for Splitter {
    ghost use Rattle.std.specs.FinSet as set;
    ghost use Rattle.std.specs.Ordering.{nat_cmp};
    ghost use Rattle.std.specs.Coded.{codes, coded_ℕ};
    ghost use Rattle.el_transform.specs.Splitter.{Splitting, IsUnfinished};

    ghost Value = { Splitting };

    ghost coded = { Prim.hlevel (codes, set.code {R = nat_cmp} coded_ℕ) };

    ghost view = { λ s. record {
      crunch = s.crunch;
      delims = s.delims;
      unfinished = s.unfinished;
      is_after_delimiter = s.is_after_delimiter;
    } };

    ghost invariant = { λ s. IsUnfinished (record {
      crunch = s.crunch;
      delims = s.delims;
      unfinished = s.unfinished;
      is_after_delimiter = s.is_after_delimiter;
    }) };
}

impl Splitter {
    /// Nothing fed so far. With `crunch` only the first delimiter of each longest run ends a value.
    /// There must be a delimiter. Later calls take their memory from `alloc`.
    pub fn new(alloc: Global, crunch: bool, delims: ByteSet) -> Splitter
        requires { delims ≡ set.empty → ⊥ }
        ensures { result ≡ starting crunch delims }
    {
        Splitter {
            alloc,
            crunch,
            delims,
            unfinished: Word::new(alloc),
            is_after_delimiter: false,
        }
    }

    /// The values that end in `piece`, which holds no NUL, in their order. `NoMemory` comes where
    /// there is no memory for them or for the bytes after them; then all is as before.
    pub fn feed(&mut self, piece: &[u8]) -> Result<Words, NoMemory>
        requires { HasNul piece.now → ⊥ }
        ensures values { IfOk result (λ values. values ≡ values_of self.old piece.now) }
        ensures ok { OnOk result (self.new ≡ fed self.old piece.now) }
        ensures err { OnErr result (self.new ≡ self.old) }
    {
        let (ending, rest) = piece.split_at(ending_len(&self.delims, piece));
        if ending.is_empty() {
            self.unfinished.append(rest)?;
            self.is_after_delimiter = self.is_after_delimiter && rest.is_empty();
            return Ok(Words::new(self.alloc));
        }
        let values = self.values_with_last(ending)?;
        self.unfinished = Word::of(self.alloc, rest)?;
        self.is_after_delimiter = rest.is_empty();
        Ok(values)
    }

    /// How many bytes are unfinished. None of them is a delimiter, and behind a delimiter there are
    /// none.
    pub fn held(&self) -> usize
        ensures count { result ≡ length self.now.unfinished }
        ensures unfinished { IsUnfinished self.now }
    {
        self.unfinished.as_bytes().len()
    }

    /// The last value: the unfinished bytes, or None exactly where there are none. Takes no memory.
    pub fn finish(self) -> Option<Word>
        ensures { result ≡ last_value self.unfinished }
    {
        if self.held() == 0 {
            None
        } else {
            Some(self.unfinished)
        }
    }

    // The values that end in these bytes, and what is unfinished behind them as one more.
    fn values_with_last(&self, bytes: &[u8]) -> Result<Words, NoMemory>
        requires { HasNul bytes.now → ⊥ }
        ensures { IfOk result (λ values. values ≡ values_of self.now bytes.now ++ last_word (fed self.now bytes.now).unfinished) }
    {
        let mut whole = self.unfinished.copy()?;
        if self.crunch {
            let kept = crunch_behind(self.alloc, self.is_after_delimiter, &self.delims, bytes)?;
            whole.append(&kept)?;
        } else {
            whole.append(bytes)?;
        }
        split(self.alloc, &self.delims, whole.as_bytes())
    }
}

/// How many bytes there are up to the last delimiter, with it, or 0 where none is a delimiter.
fn ending_len(delims: &ByteSet, bytes: &[u8]) -> usize
    ensures within { result ≤ length bytes.now }
    ensures ends { 0 < result → is_delimiter delims.now (slice_index bytes.now (result - 1)) ≡ true }
    ensures none_behind { has_delimiter delims.now (drop result bytes.now) ≡ false }
{
    let mut len = bytes.len();
    while len > 0 && !delims.has(bytes[len - 1]) {
        len -= 1;
    }
    len
}
