//! A script with the words of a layout that has more of them.
ghost use Rattle.std.specs.Prelude.{◌≡◌, IfOk};
ghost use Rattle.el_keep.specs.Widened.{is_added};
ghost use Rattle.el_keep.specs.Texts.{ends_line, gap_text_at, text_left_at, widened_text};

use crate::part::first_part;
use el_words::{Bytes, NoMemory};
use std::alloc::Global;

/// The words of `layout` between what `script` has between its own. Where a line of `layout` has more words than that of
/// `plain`, which has as many words as the script, the script has none for them, and a space stands before each.
pub(crate) fn widened(
    alloc: Global,
    plain: &[u8],
    layout: &[u8],
    script: &[u8],
) -> Result<Bytes, NoMemory>
    ensures { IfOk result (λ out. out ≡ widened_text plain.now layout.now script.now) }
{
    let mut out = Bytes::new(alloc);
    let (mut plain_left, mut laid, mut written) = (plain, layout, script);
    loop {
        let place = first_part(laid);
        if place.word.is_empty() {
            out.append(first_part(written).gap)?;
            return Ok(out);
        }
        let added = is_added(first_part(plain_left).gap, place.gap);
        out.append(gap_at(added, written))?;
        out.append(place.word)?;
        plain_left = left_at(added, plain_left);
        written = left_at(added, written);
        laid = place.rest;
    }
}

// Whether the line ends in the plain layout, and goes on in the other.
fn is_added(plain_gap: &[u8], gap: &[u8]) -> bool
    ensures { result ≡ is_added (ends_line plain_gap.now) (ends_line gap.now) }
{
    ends_line(plain_gap) && !ends_line(gap)
}

fn ends_line(gap: &[u8]) -> bool
    ensures { result ≡ ends_line gap.now }
{
    gap.contains(&b'\n')
}

// What stands before a word.
fn gap_at(added: bool, script: &[u8]) -> &[u8]
    ensures { result.now ≡ gap_text_at added script.now }
{
    if added { b" " } else { first_part(script).gap }
}

// What is left behind it.
fn left_at(added: bool, text: &[u8]) -> &[u8]
    ensures { result.now ≡ text_left_at added text.now }
{
    if added { text } else { first_part(text).rest }
}
