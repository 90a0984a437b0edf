//! The next reference of a word that has a pair.
ghost use Rattle.std.specs.Prelude.{◌≡◌, ◌<◌, ◌≤◌, ◌∷◌, [], length, reverse, ◌==◌, IfSome, IfNone};
ghost use Rattle.std.specs.List.{prefix_len};
ghost use Rattle.el_words.specs.Word.{HasNul};
ghost use Rattle.el_subst.specs.Values.{word_value, products};
ghost use Rattle.std.specs.Option.{option_copied, option_map};
ghost use Rattle.el_subst.specs.Pieces.{piece_choices, part_choices, replaced};
ghost use Rattle.el_subst.specs.Dollars.{pair_after};

use crate::lookup::Lookup;
use crate::piece::Piece;
use crate::reference::reference_after;
use crate::text::Text;
use el_words::Words;
use memchr::memchr;

/// The first reference of a word that has a pair.
#[derive(Drop)]
pub struct Paired<'a> {
    /// What stays before it: half of its backslashes stand there.
    pub before: Text<'a>,
    /// What comes in its place.
    pub piece: Piece<'a>,
    /// What follows it.
    pub rest: &'a [u8],
}

/// The first reference in `bytes` that has a pair. There is None where every byte stays.
pub fn next_paired<'a>(lookup: &'a Lookup<'a>, bytes: &'a [u8]) -> Option<Paired<'a>>
    requires { HasNul bytes.now → ⊥ }
    ensures none { IfNone result (word_value lookup.now bytes.now ≡ bytes.now ∷ []) }
    ensures some { IfSome result (λ found. word_value lookup.now bytes.now ≡ products ((found.before ∷ []) ∷ piece_choices found.piece ∷ part_choices lookup.now found.rest.now)) }
    ensures shorter { IfSome result (λ found. length found.rest.now < length bytes.now) }
    ensures no_nul { IfSome result (λ found. HasNul found.rest.now → ⊥) }
{
    let mut start = 0;
    while let Some(place) = memchr(b'$', &bytes[start..]) {
        let dollar = start + place;
        let (count, values) = pair_after(lookup, &bytes[dollar + 1..]);
        let end = dollar + 1 + count;
        let slashes = slashes_before(&bytes[start..dollar]);
        if let Some(piece) = replaced(slashes, &bytes[dollar..end], values) {
            return Some(Paired {
                before: Text::of(&bytes[..dollar - (slashes - slashes / 2)]),
                piece,
                rest: &bytes[end..],
            });
        }
        start = end;
    }
    None
}

// How many bytes the reference that a `$` begins takes after it, and its words. There is no pair
// for what is no reference, and it takes no bytes.
fn pair_after<'a>(lookup: &'a Lookup<'a>, after: &[u8]) -> (usize, Option<&'a Words>)
    ensures count { result.0 ≡ (pair_after lookup.now after.now).0 }
    ensures value { option_copied result.1 ≡ (pair_after lookup.now after.now).1 }
    ensures within { result.0 ≤ length after.now }
{
    match reference_after(after) {
        Some(reference) => (reference.length, lookup.words_of(reference.key)),
        None => (0, None),
    }
}

// What comes in place of a reference that has a pair. Behind an odd number of backslashes its own text remains.
fn replaced<'a>(slashes: usize, text: &'a [u8], values: Option<&'a Words>) -> Option<Piece<'a>>
    requires { HasNul text.now → ⊥ }
    ensures { option_map piece_choices result ≡ option_map (replaced slashes text.now) (option_copied values.entry) }
{
    match values {
        Some(_) if slashes % 2 == 1 => Some(Piece::Literal(Text::of(text))),
        Some(values) => Some(Piece::Values(values)),
        None => None,
    }
}

/// The number of backslashes at the end.
pub(crate) fn slashes_before(before: &[u8]) -> usize
    ensures { result ≡ prefix_len (λ byte. byte == 92) (reverse before.now) }
{
    before
        .iter()
        .rev()
        .take_while(|byte| **byte == b'\\')
        .count()
}
