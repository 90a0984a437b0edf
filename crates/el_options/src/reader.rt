//! The reader of option words, word by word.
ghost use Rattle.std.specs.Prelude.{◌≡◌, ◌↔◌, IsTrue, ◌+◌, ◌^◌, ◌<◌, ◌≤◌, ◌==◌, true, [], drop, length, position, Some, None, IfOk, OnOk, IfErr, set, slice_index_or};
ghost use Rattle.el_options.specs.Reading.{reading, shown, Letters, cluster_of};
ghost use Rattle.el_options.specs.Slots.{are_good_opts, faulty};
ghost use Rattle.el_options.specs.Reader.{IsOption, letter_at, bytes_in, IsAt, IsWanting, IsStep};

use crate::{Slot, Table, UsageFault};
use el_words::Words;

/// How far the options are read.
#[derive(Drop)]
pub(crate) struct Reader<const N: usize> {
    pub(crate) slots: [Slot; N],
    /// How many letters were read.
    pub(crate) count: usize,
    /// How many words were read.
    pub(crate) used: usize,
}

impl<const N: usize> Reader<N> {
    /// The program's name is read, and no letter yet.
    pub(crate) fn new(table: &Table<N>, words: &Words) -> Reader<N>
        requires named { 0 < length words.now }
        requires few { N ≤ 16 }
        ensures { IsAt table.now.opts words.now None result.slots result.count result.used }
    {
        Reader {
            slots: [Slot::Absent; N],
            count: 0,
            used: 1,
        }
    }

    /// Reads the next word if it is an option word, with the value behind it; or tells that reading ends.
    pub(crate) fn option_word(
        &mut self,
        table: &Table<N>,
        words: &Words,
    ) -> Result<bool, UsageFault>
        requires few { N ≤ 16 }
        requires good { are_good_opts table.now.opts ≡ true }
        requires at { IsAt table.now.opts words.now None self.old.slots self.old.count self.old.used }
        ensures ok { IfOk result (λ goes_on. IsStep table.now.opts words.now self.old.used self.new.slots self.new.count self.new.used goes_on) }
        ensures fault { IfErr result (λ fault. reading table.now.opts words.now ≡ faulty fault) }
    {
        if self.used == words.len() {
            return Ok(false);
        }
        let text = words.at(self.used);
        if !is_option(text) {
            return Ok(false);
        }
        if text == b"--".as_slice() {
            self.used += 1;
            return Ok(false);
        }
        let wanting = self.cluster(table, words)?;
        self.used += 1;
        if let Some(place) = wanting {
            self.next_value(table, words, place)?;
        }
        Ok(true)
    }

    /// Reads the letters of a word, and gives the place of the one that takes the next word.
    fn cluster(&mut self, table: &Table<N>, words: &Words) -> Result<Option<usize>, UsageFault>
        requires few { N ≤ 16 }
        requires fits { bytes_in words.now < 2 ^ 63 }
        requires good { are_good_opts table.now.opts ≡ true }
        requires at { IsAt table.now.opts words.now None self.old.slots self.old.count self.old.used }
        requires inside { self.old.used < length words.now }
        requires letters { shown table.now.opts (slice_index_or words.now self.old.used []) ≡ Letters (cluster_of table.now.opts (drop 1 (slice_index_or words.now self.old.used []))) }
        ensures ok { IfOk result (λ place. IsWanting table.now.opts words.now self.new.slots self.new.count (self.old.used + 1) place) }
        ensures fault { IfErr result (λ fault. reading table.now.opts words.now ≡ faulty fault) }
        ensures used { self.new.used ≡ self.old.used }
    {
        let word = self.used;
        let text = words.at(word);
        for from in 1..text.len() {
            let letter = text[from];
            let place = place_of(table, letter).ok_or(UsageFault::Unknown { letter })?;
            if table.opts[place].takes {
                if from + 1 == text.len() {
                    return Ok(Some(place));
                }
                let nth = self.count;
                self.note(
                    place,
                    Slot::Value {
                        nth,
                        word,
                        from: from + 1,
                    },
                );
                return Ok(None);
            }
            self.note(place, Slot::Flag { nth: self.count });
        }
        Ok(None)
    }

    /// Takes the next word as the value of the letter at `place`.
    fn next_value(
        &mut self,
        table: &Table<N>,
        words: &Words,
        place: usize,
    ) -> Result<(), UsageFault>
        requires few { N ≤ 16 }
        requires good { are_good_opts table.now.opts ≡ true }
        requires place { place < length table.now.opts }
        requires at { IsAt table.now.opts words.now (Some (letter_at table.now.opts place)) self.old.slots self.old.count self.old.used }
        ensures ok { OnOk result (IsAt table.now.opts words.now None self.new.slots self.new.count self.new.used) }
        ensures used { OnOk result (self.old.used < self.new.used) }
        ensures fault { IfErr result (λ fault. reading table.now.opts words.now ≡ faulty fault) }
    {
        let (nth, word) = (self.count, self.used);
        if word == words.len() {
            return Err(UsageFault::NoValue {
                letter: table.opts[place].letter,
            });
        }
        self.note(place, Slot::Value { nth, word, from: 0 });
        self.used += 1;
        Ok(())
    }

    /// The letter at `place` was read.
    fn note(&mut self, place: usize, slot: Slot)
        requires few { N ≤ 16 }
        requires place { place < N }
        requires room { self.old.count < 2 ^ 63 }
        ensures slots { self.new.slots ≡ set self.old.slots place slot }
        ensures count { self.new.count ≡ self.old.count + 1 }
        ensures used { self.new.used ≡ self.old.used }
    {
        self.slots[place] = slot;
        self.count += 1;
    }
}

/// Whether a word is an option word.
fn is_option(text: &[u8]) -> bool
    ensures { IsTrue result ↔ IsOption text.now }
{
    text.len() > 1 && text[0] == b'-'
}

/// The place of a letter in a table.
pub(crate) fn place_of<const N: usize>(table: &Table<N>, letter: u8) -> Option<usize>
    ensures { result ≡ position (λ opt. opt.letter == letter) table.now.opts }
{
    table.opts.iter().position(|opt| opt.letter == letter)
}
