//! A layout with the comments and the empty lines of a script.
ghost use Rattle.std.specs.Prelude.{◌≡◌, IfOk};
ghost use Rattle.el_keep.specs.Texts.{kept_text, kept_wider};

use crate::gap::put_gap;
use crate::part::first_part;
use crate::seam::{Follow, Seam};
use crate::widening::widened;
use el_words::{Bytes, NoMemory};
use std::alloc::Global;

/// The words of `layout`, and before each what `script` has before its word of the same number: each comment, on the line of
/// the word before it or on a line of its own, and one empty line where there is one or more. Else the words stand as they do in
/// the layout; where a comment stands between two words of a line, the line goes on below it, four spaces deeper.
///
/// Both are scripts without a fault of the lexer. The only error is want of memory.
pub fn keep(alloc: Global, layout: &[u8], script: &[u8]) -> Result<Bytes, NoMemory>
    ensures { IfOk result (λ out. out ≡ kept_text layout.now script.now) }
{
    let mut out = Bytes::new(alloc);
    let mut seam = Seam::Top;
    let (mut laid, mut written) = (layout, script);
    loop {
        let place = first_part(laid);
        let source = first_part(written);
        seam = seam.over_all(place.gap)?;
        if place.word.is_empty() {
            put_gap(&mut out, source.gap, seam, Follow::End)?;
            return Ok(out);
        }
        put_gap(&mut out, source.gap, seam, Follow::of(place.word))?;
        out.append(place.word)?;
        seam = seam.behind_word();
        laid = place.rest;
        written = source.rest;
    }
}

/// The same for a layout with more words than the script has, each last on its line: `plain` is the layout without them. What
/// the script has before a word stays before it, and so behind the words that are added before it.
pub fn keep_wider(
    alloc: Global,
    plain: &[u8],
    layout: &[u8],
    script: &[u8],
) -> Result<Bytes, NoMemory>
    ensures { IfOk result (λ out. out ≡ kept_wider plain.now layout.now script.now) }
{
    let wide = widened(alloc, plain, layout, script)?;
    keep(alloc, layout, wide.as_bytes())
}
