//! A text line by line, and a line word by word.
#![tactic(auto, using(crate::proofs::LineCuts::cuts))]

ghost use Rattle.std.specs.Prelude.{◌≡◌, ◌≤◌, ◌∷◌, length};
ghost use Rattle.std.specs.List.{slice_split};
ghost use Rattle.el_lint.specs.Allowances.{is_blank, is_newline};
ghost use Rattle.el_lint.specs.Lines.{pieces_behind, size_behind};

use memchr::{memchr, memchr2};

/// A text's first line or word, and what stands behind its newline or blank, where it has one.
#[derive(Clone, Copy)]
pub(crate) struct Cut<'a> {
    pub(crate) piece: &'a [u8],
    pub(crate) rest: Option<&'a [u8]>,
}

/// Cuts a text behind its first line.
pub(crate) fn cut_line(text: &[u8]) -> Cut<'_>
    ensures pieces { slice_split is_newline text.now ≡ result.piece.now ∷ pieces_behind is_newline result.rest }
    ensures smaller { size_behind result.rest ≤ length text.now }
{
    match memchr(b'\n', text) {
        Some(end) => Cut {
            piece: &text[..end],
            rest: Some(&text[end + 1..]),
        },
        None => Cut {
            piece: text,
            rest: None,
        },
    }
}

/// Cuts a line behind its first blank.
pub(crate) fn cut_word(line: &[u8]) -> Cut<'_>
    ensures pieces { slice_split is_blank line.now ≡ result.piece.now ∷ pieces_behind is_blank result.rest }
    ensures smaller { size_behind result.rest ≤ length line.now }
{
    match memchr2(b' ', b'\t', line) {
        Some(end) => Cut {
            piece: &line[..end],
            rest: Some(&line[end + 1..]),
        },
        None => Cut {
            piece: line,
            rest: None,
        },
    }
}
