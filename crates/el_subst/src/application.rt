//! Values put in words: `apply` and `apply_to`.
ghost use Rattle.std.specs.Prelude.{◌≡◌, ◌<◌, ◌≤◌, ◌∷◌, ℕ, length, IfOk, OnOk};
ghost use Rattle.el_words.specs.Word.{HasNul};
ghost use Rattle.el_words.specs.Args.{Args, spelled};
ghost use Rattle.el_subst.specs.Values.{word_value, words_value, products};
ghost use Rattle.el_subst.specs.Pieces.{choices_of};
ghost use Rattle.el_subst.specs.Scopes.{put};
ghost use Rattle.el_subst.specs.Sizes.{size_of, HasRoom, Puts};
ghost use Rattle.el_subst.specs.Staying.{AreChanged};

use crate::lookup::Lookup;
use crate::paired::next_paired;
use crate::piece::Piece;
use crate::product::put_products;
use crate::size::Size;
use crate::subst::Subst;
use crate::text::Text;
use el_words::{NoMemory, Room, Words};
use std::alloc::Global;

/// The words with each reference that has a pair in `subst` replaced, all at once. A word becomes
/// every choice of words for its references, the leftmost varying slowest, and none where a value
/// has no words. What is put in isn't looked at again.
///
/// In a word, `${` starts a reference where a `}` follows and no `$` stands between; its key is what
/// stands between. Else `$` before a letter, a digit or `_` starts one whose key is the longest run
/// of these, and `$` before `#`, `@`, `!`, `?` or `*` one with this key. Every other `$` is literal.
/// A reference without a pair stays, with all backslashes before it; with a pair, half of them stay,
/// and where their number is odd the reference's text stays too. These are execline's rules of
/// substitution. The only error is want of memory, and where there is no room for all words that are
/// to be made, it comes before the first is.
///
/// So the values of a spelling are the spelling of the values: leading spaces are literal, and no
/// value falls out of its block.
pub fn apply(alloc: Global, subst: &Subst, words: &Words) -> Result<Words, NoMemory>
    ensures values { IfOk result (λ made. made ≡ words_value subst.now words.now) }
    ensures spelling { IfOk result (λ made. (depth : ℕ) (args : Args) → words.now ≡ spelled depth args → made ≡ spelled depth (put subst.now args)) }
{
    let lookup = Lookup::of(alloc, subst)?;
    let changed = changed_places(alloc, &lookup, words, 0)?;
    all_values(alloc, &lookup, words, &changed)
}

/// What `apply` makes, of words that are handed over. Where none of them has a reference with a pair,
/// these very words come back, and nothing is copied.
pub fn apply_to(alloc: Global, subst: &Subst, mut words: Words) -> Result<Words, NoMemory>
    ensures values { IfOk result (λ made. made ≡ words_value subst.now words) }
    ensures spelling { IfOk result (λ made. (depth : ℕ) (args : Args) → words ≡ spelled depth args → made ≡ spelled depth (put subst.now args)) }
{
    let Some(dollar) = words.first_dollar() else {
        return Ok(words);
    };
    let lookup = Lookup::of(alloc, subst)?;
    let changed = changed_places(alloc, &lookup, &words, dollar)?;
    if changed.is_empty() {
        return Ok(words);
    }
    all_values(alloc, &lookup, &words, &changed)
}

// The places from `from` on whose words have a reference with a pair. The others stay.
fn changed_places<'a>(
    alloc: Global,
    lookup: &'a Lookup<'a>,
    words: &'a Words,
    from: usize,
) -> Result<Vec<usize>, NoMemory>
    requires { from ≤ length words.now }
    ensures { IfOk result (λ changed. AreChanged lookup.now words.now from changed.items (length words.now)) }
{
    let byte = lookup.telling_byte();
    let mut changed = Vec::new(alloc);
    let mut start = from;
    while let Some(place) = words.next_holding(start, byte) {
        if next_paired(lookup, words.at(place)).is_some() {
            changed.push(place)?;
        }
        start = place + 1;
    }
    Ok(changed)
}

// The values are counted first, so that memory is taken for all of them at once. What stays between
// two words that change is copied in bulk.
fn all_values(
    alloc: Global,
    lookup: &Lookup,
    words: &Words,
    changed: &[usize],
) -> Result<Words, NoMemory>
    requires { AreChanged lookup.now words.now 0 changed.now (length words.now) }
    ensures { IfOk result (λ made. made ≡ words_value lookup.now words.now) }
{
    let mut room = size_of_all(lookup, words, changed).room(alloc)?;
    let end = words.len();
    let mut from = 0;
    for place in changed {
        room.append(words, from, *place);
        put_values(alloc, lookup, words.at(*place), &mut room)?;
        from = *place + 1;
    }
    room.append(words, from, end);
    Ok(room.into_words())
}

fn size_of_all<'a>(lookup: &'a Lookup<'a>, words: &'a Words, changed: &[usize]) -> Size
    requires { AreChanged lookup.now words.now 0 changed.now (length words.now) }
    ensures { result ≡ size_of (words_value lookup.now words.now) }
{
    let mut size = Size::zero();
    let end = words.len();
    let mut from = 0;
    for place in changed {
        size = size
            .plus(Size::of_part(words, from, *place))
            .plus(size_of_values(lookup, words.at(*place)));
        from = *place + 1;
    }
    size.plus(Size::of_part(words, from, end))
}

fn size_of_values<'a>(lookup: &'a Lookup<'a>, word: &'a [u8]) -> Size
    requires { HasNul word.now → ⊥ }
    ensures { result ≡ size_of (word_value lookup.now word.now) }
{
    let mut size = Size::of_word(b"");
    let mut rest = word;
    while let Some(found) = next_paired(lookup, rest) {
        size = size
            .times(Size::of_word(found.before.as_bytes()))
            .times(found.piece.size());
        rest = found.rest;
    }
    size.times(Size::of_word(rest))
}

fn put_values(alloc: Global, lookup: &Lookup, word: &[u8], room: &mut Room) -> Result<(), NoMemory>
    requires no_nul { HasNul word.now → ⊥ }
    requires fits { HasRoom room.old (word_value lookup.now word.now) }
    ensures { OnOk result (Puts room.old room.new (word_value lookup.now word.now)) }
{
    put_products(alloc, &pieces_of(alloc, lookup, word)?, room)
}

// The pieces of a word, between and at its references that have a pair.
fn pieces_of<'a>(
    alloc: Global,
    lookup: &'a Lookup<'a>,
    word: &'a [u8],
) -> Result<Vec<Piece<'a>>, NoMemory>
    requires { HasNul word.now → ⊥ }
    ensures { IfOk result (λ pieces. products (choices_of pieces.items) ≡ word_value lookup.now word.now) }
{
    let mut pieces = Vec::new(alloc);
    let mut rest = word;
    while let Some(found) = next_paired(lookup, rest) {
        pieces.push(Piece::Literal(found.before))?;
        pieces.push(found.piece)?;
        rest = found.rest;
    }
    pieces.push(Piece::Literal(Text::of(rest)))?;
    Ok(pieces)
}
