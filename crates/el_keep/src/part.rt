//! A text cut into gaps and words.
ghost use Rattle.std.specs.Prelude.{◌≡◌, ◌+◌, ◌≤◌, length};
ghost use Rattle.el_keep.specs.declared.place.Place.TheVariants.{Gap as gap_place};
ghost use Rattle.el_keep.specs.Parts.{run_from, gap_in, word_in, rest_in};

use crate::place::Place;

/// The first part of a text: whitespace and comments, which may be empty; the word behind them, which is empty at the
/// end alone; and what is left.
#[derive(Clone, Copy)]
pub(crate) struct Part<'a> {
    pub(crate) gap: &'a [u8],
    pub(crate) word: &'a [u8],
    pub(crate) rest: &'a [u8],
}

/// The first part of `text`.
#[tactic(auto, using(crate::proofs::Runs::runs))]
pub(crate) fn first_part(text: &[u8]) -> Part<'_>
    ensures gap { result.gap.now ≡ gap_in text.now }
    ensures word { result.word.now ≡ word_in text.now }
    ensures rest { result.rest.now ≡ rest_in text.now }
    ensures whole { length result.gap.now + length result.word.now + length result.rest.now ≡ length text.now }
{
    let (gap, behind) = text.split_at(run_len(true, text));
    let (word, rest) = behind.split_at(run_len(false, behind));
    Part { gap, word, rest }
}

// How many bytes in front stand between words, or else within one.
fn run_len(between: bool, bytes: &[u8]) -> usize
    ensures count { result ≡ length (run_from between gap_place bytes.now) }
    ensures within { result ≤ length bytes.now }
{
    let mut place = Place::Gap;
    let mut count = 0;
    for byte in bytes {
        place = place.next(*byte);
        if !place.is_in(between) {
            break;
        }
        count += 1;
    }
    count
}
