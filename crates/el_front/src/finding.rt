//! Letters among those that were chosen.
ghost use Rattle.std.specs.Prelude.{◌≡◌, ◌<◌, ◌==◌, length, map, position, IfSome};
ghost use Rattle.std.specs.Option.{option_copied};
ghost use Rattle.el_words.specs.Word.{HasNul};
ghost use Rattle.el_front.specs.Reads.{is_in_force, value_by, value_told, letter_told};

use crate::choice::Choice;
use crate::owning::value_bytes;
use crate::places::Letter;
use el_words::{Word, Words};

/// Whether a letter is one of these.
pub(crate) fn is_chosen(choices: &[Choice], letter: u8) -> bool
    ensures { result ≡ is_in_force choices.now letter }
{
    choices.iter().any(|choice| choice.letter == letter)
}

/// The value of a letter.
pub(crate) fn chosen_value(choices: &[Choice], letter: u8) -> Option<&Word>
    ensures { option_copied result ≡ value_by choices.now letter }
{
    choices[place_of(choices, letter)?].value.as_ref()
}

/// Where a letter stands.
pub(crate) fn place_of(choices: &[Choice], letter: u8) -> Option<usize>
    ensures place { result ≡ position (λ choice. choice.letter == letter) choices.now }
    ensures within { IfSome result (λ place. place < length choices.now) }
{
    choices.iter().position(|choice| choice.letter == letter)
}

/// Whether a letter is one of these, whose values stand in the words.
pub(crate) fn is_found(words: &Words, letters: &[Letter], letter: u8) -> bool
    ensures { result ≡ is_in_force (map (letter_told words.now) letters.now) letter }
{
    letters.iter().any(|other| other.letter == letter)
}

/// The value of a letter, whose bytes stand in the words.
pub(crate) fn found_value<'a>(words: &'a Words, letters: &[Letter], letter: u8) -> Option<&'a [u8]>
    ensures same { option_copied result ≡ value_by (map (letter_told words.now) letters.now) letter }
    ensures no_nul { IfSome result (λ value. HasNul value.now → ⊥) }
{
    match found_at(letters, letter) {
        Some(place) => value_of(words, letters[place]),
        None => None,
    }
}

fn value_of(words: &Words, letter: Letter) -> Option<&[u8]>
    ensures same { option_copied result ≡ value_told words.now letter.value }
    ensures no_nul { IfSome result (λ value. HasNul value.now → ⊥) }
{
    match letter.value {
        Some(place) => Some(value_bytes(words, place)),
        None => None,
    }
}

fn found_at(letters: &[Letter], letter: u8) -> Option<usize>
    ensures place { result ≡ position (λ other. other.letter == letter) letters.now }
    ensures within { IfSome result (λ place. place < length letters.now) }
{
    letters.iter().position(|other| other.letter == letter)
}
