//! What a program asks of its front.
ghost use Rattle.std.specs.Prelude.{◌≡◌, drop, map, IfOk, IfSome};
ghost use Rattle.std.specs.Option.{option_copied};
ghost use Rattle.el_words.specs.Word.{HasNul};
ghost use Rattle.el_front.specs.Reads.{read_of, is_in_force, value_by, index_of, text_at, the_text, block_at, directive_told, directive_text, own_directive};

use crate::directing::{directive_at, own_block};
use crate::directive::Directive;
use crate::finding::{chosen_value, found_value, is_chosen, is_found};
use crate::front::{Front, Nth};
use crate::owning::text_at;
use el_words::{NoMemory, Prog, Word, Words};
use std::alloc::Global;

impl Front {
    /// Whether a letter is in force.
    pub fn has(&self, letter: u8) -> bool
        ensures { result ≡ is_in_force (read_of self.now).letters letter }
    {
        is_found(&self.words, &self.places.letters, letter)
    }

    /// The value that a letter has in force.
    pub fn value(&self, letter: u8) -> Option<&[u8]>
        ensures same { option_copied result ≡ value_by (read_of self.now).letters letter }
        ensures no_nul { IfSome result (λ value. HasNul value.now → ⊥) }
    {
        found_value(&self.words, &self.places.letters, letter)
    }

    /// The single word at a place, where it may be missing.
    pub fn optional_text(&self, nth: Nth) -> Option<&[u8]>
        ensures { option_copied result ≡ text_at nth (read_of self.now) }
    {
        match self.places.texts.get(nth.index()) {
            Some(place) => Some(text_at(&self.words, *place)),
            None => None,
        }
    }

    /// The bytes of the single word at a place; none where it isn't there.
    pub fn text(&self, nth: Nth) -> &[u8]
        ensures same { result.now ≡ the_text nth (read_of self.now) }
        ensures no_nul { HasNul result.now → ⊥ }
    {
        match self.places.texts.get(nth.index()) {
            Some(place) => text_at(&self.words, *place),
            None => b"",
        }
    }

    /// A copy of that word.
    pub fn word(&self, alloc: Global, nth: Nth) -> Result<Word, NoMemory>
        ensures { IfOk result (λ word. word ≡ the_text nth (read_of self.now)) }
    {
        Word::of(alloc, self.text(nth))
    }

    /// The words of the block at a place, without their leading spaces; none where it isn't there.
    pub fn block(&self, alloc: Global, nth: Nth) -> Result<Words, NoMemory>
        ensures { IfOk result (λ block. block ≡ block_at nth (read_of self.now)) }
    {
        own_block(alloc, &self.words, &self.places.blocks, nth.index())
    }

    /// A copy of the words that remain, where the front is used beside them.
    pub fn rest(&self) -> Result<Words, NoMemory>
        ensures { IfOk result (λ rest. rest ≡ (read_of self.now).rest) }
    {
        Ok(behind(self.words.copy()?, self.places.rest))
    }

    /// The words that remain.
    pub fn into_rest(self) -> Words
        ensures { result ≡ (read_of self).rest }
    {
        behind(self.words, self.places.rest)
    }

    /// The directives, and the words that remain.
    pub fn into_directives(self) -> (Vec<Directive>, Words)
        ensures directives { map directive_told result.0.items ≡ (read_of self).directives }
        ensures rest { result.1 ≡ (read_of self).rest }
    {
        let rest = behind(self.words, self.places.rest);
        (self.places.directives, rest)
    }

    /// The front as the only directive of its program, and the words that remain.
    pub fn into_directive(
        self,
        alloc: Global,
        program: Prog,
    ) -> Result<(Directive, Words), NoMemory>
        ensures directive { IfOk result (λ both. directive_told both.0 ≡ own_directive program (read_of self)) }
        ensures rest { IfOk result (λ both. both.1 ≡ (read_of self).rest) }
    {
        let directive = directive_at(alloc, program, &self.words, &self.places)?;
        Ok((directive, self.into_rest()))
    }
}

// The words behind the first so many; none where there are fewer.
fn behind(mut words: Words, read: usize) -> Words
    ensures { result ≡ drop read words }
{
    words.drop_front(read.min(words.len()));
    words
}

impl Directive {
    /// Whether a letter is in force.
    pub fn has(&self, letter: u8) -> bool
        ensures { result ≡ is_in_force self.now.letters.items letter }
    {
        is_chosen(&self.letters, letter)
    }

    /// The value that a letter has in force.
    pub fn value(&self, letter: u8) -> Option<&Word>
        ensures { option_copied result ≡ value_by self.now.letters.items letter }
    {
        chosen_value(&self.letters, letter)
    }

    /// The bytes of the single word at a place; none where it isn't there.
    pub fn text(&self, nth: Nth) -> &[u8]
        ensures same { result.now ≡ directive_text nth (directive_told self.now) }
        ensures no_nul { HasNul result.now → ⊥ }
    {
        text_at(&self.texts, nth.index())
    }

    /// A copy of that word.
    pub fn word(&self, alloc: Global, nth: Nth) -> Result<Word, NoMemory>
        ensures { IfOk result (λ word. word ≡ directive_text nth (directive_told self.now)) }
    {
        Word::of(alloc, self.text(nth))
    }
}

impl Nth {
    fn index(self) -> usize
        ensures { result ≡ index_of self }
    {
        match self {
            Nth::First => 0,
            Nth::Second => 1,
            Nth::Third => 2,
        }
    }
}
