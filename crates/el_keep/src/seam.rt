//! Where the words of a layout stand, and what is written around comments there.
ghost use Rattle.std.specs.Prelude.{◌≡◌, ◌+◌, ◌++◌, IfOk, OnOk};
ghost use Rattle.el_keep.specs.Seams.{over, over_all, behind_word, follow_of, spaces, indent_of, comment_indent, broken, line_start, lead, last};

use crate::distance::Distance;
use el_words::{Bytes, NoMemory};

/// How much deeper a line is that goes on with a line.
const CONTINUED: usize = 4;

/// How much deeper the lines of a block are.
const DEEPER: usize = 2;

/// What stands before a word of a layout.
#[derive(Clone, Copy)]
pub(crate) enum Seam {
    /// Nothing.
    Top,
    /// A word on the same line, which is indented by so many spaces.
    Within(usize),
    /// A line; the word's own is indented by so many spaces.
    Below(usize),
}

/// What follows a gap of a layout.
#[derive(Clone, Copy)]
pub(crate) enum Follow {
    /// A word, or `{`.
    Word,
    /// `}`
    Close,
    /// Nothing.
    End,
}

impl Follow {
    /// What the layout has there.
    pub(crate) fn of(word: &[u8]) -> Follow
        ensures { result ≡ follow_of word.now }
    {
        if word == b"}".as_slice() {
            Follow::Close
        } else {
            Follow::Word
        }
    }
}

impl Seam {
    /// The seam behind the bytes between two words. No text with a deeper line fits in memory.
    pub(crate) fn over_all(self, gap: &[u8]) -> Result<Seam, NoMemory>
        ensures { IfOk result (λ seam. seam ≡ over_all self gap.now) }
    {
        let mut seam = self;
        for byte in gap {
            seam = seam.over(*byte)?;
        }
        Ok(seam)
    }

    fn over(self, byte: u8) -> Result<Seam, NoMemory>
        ensures { IfOk result (λ seam. seam ≡ over self byte) }
    {
        match self {
            Seam::Top => Ok(Seam::Top),
            _ if byte == b'\n' => Ok(Seam::Below(0)),
            Seam::Within(indent) => Ok(Seam::Within(indent)),
            Seam::Below(indent) => Ok(Seam::Below(deeper(indent, 1)?)),
        }
    }

    /// The seam behind a word.
    pub(crate) fn behind_word(self) -> Seam
        ensures { result ≡ behind_word self }
    {
        match self {
            Seam::Top => Seam::Within(0),
            Seam::Within(indent) | Seam::Below(indent) => Seam::Within(indent),
        }
    }

    /// The seam behind a comment, where a line begins.
    pub(crate) fn broken(self) -> Result<Seam, NoMemory>
        ensures { IfOk result (λ seam. seam ≡ broken self) }
    {
        Ok(Seam::Below(self.indent()?))
    }

    /// Puts last what is written before a comment.
    pub(crate) fn put_lead(
        self,
        out: &mut Bytes,
        follow: Follow,
        distance: Distance,
    ) -> Result<(), NoMemory>
        ensures { OnOk result (out.new ≡ out.old ++ lead self follow distance) }
    {
        match (self, distance) {
            (Seam::Top, _) => Ok(()),
            (_, Distance::SameLine) => out.push(b' '),
            _ => put_line_start(out, distance, self.comment_indent(follow)?),
        }
    }

    /// Puts last what is written before a word and before the end.
    pub(crate) fn put_last(
        self,
        out: &mut Bytes,
        follow: Follow,
        distance: Distance,
    ) -> Result<(), NoMemory>
        ensures { OnOk result (out.new ≡ out.old ++ last self follow distance) }
    {
        match (self, follow) {
            (Seam::Top, _) => Ok(()),
            (_, Follow::End) => out.push(b'\n'),
            (Seam::Within(_), _) => out.push(b' '),
            (Seam::Below(indent), _) => put_line_start(out, distance, indent),
        }
    }

    // How far a line is indented that begins here.
    fn indent(self) -> Result<usize, NoMemory>
        ensures { IfOk result (λ indent. indent ≡ indent_of self) }
    {
        match self {
            Seam::Top => Ok(0),
            Seam::Within(indent) => deeper(indent, CONTINUED),
            Seam::Below(indent) => Ok(indent),
        }
    }

    // How far a comment's line is indented.
    fn comment_indent(self, follow: Follow) -> Result<usize, NoMemory>
        ensures { IfOk result (λ indent. indent ≡ comment_indent self follow) }
    {
        let indent = self.indent()?;
        match follow {
            Follow::Close => deeper(indent, DEEPER),
            Follow::Word | Follow::End => Ok(indent),
        }
    }
}

fn deeper(indent: usize, more: usize) -> Result<usize, NoMemory>
    ensures { IfOk result (λ sum. sum ≡ indent + more) }
{
    indent.checked_add(more).ok_or(NoMemory)
}

// Ends a line, and an empty one where there was one, and begins the next.
fn put_line_start(out: &mut Bytes, distance: Distance, indent: usize) -> Result<(), NoMemory>
    ensures { OnOk result (out.new ≡ out.old ++ line_start distance indent) }
{
    if matches!(distance, Distance::BlankLine) {
        out.push(b'\n')?;
    }
    out.push(b'\n')?;
    put_spaces(out, indent)
}

fn put_spaces(out: &mut Bytes, count: usize) -> Result<(), NoMemory>
    ensures { OnOk result (out.new ≡ out.old ++ spaces count) }
{
    for _ in 0..count {
        out.push(b' ')?;
    }
    Ok(())
}
