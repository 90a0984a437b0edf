//! What a message is about, in a line that is written before it.
ghost use Rattle.std.specs.Prelude.{◌≡◌, ◌++◌, [], false, IfOk, OnOk, option_map};
ghost use Rattle.el_real.specs.Hints.{with_text, with_line, with_note, hint_line, IsHint};

use crate::shown::{put_plain, put_shown};
use el_words::{Bytes, NoMemory, put_u64};
use el_world::Subject;
use std::alloc::Global;

/// The line that a subject makes, and where it goes.
#[derive(Drop)]
pub struct Hint {
    /// The line; empty if nothing is to be said.
    pub line: Bytes,
    /// Whether what is written next is output, so that the line goes to standard error.
    pub is_of_output: bool,
}

impl Hint {
    /// Nothing to be said.
    pub fn none(alloc: Global) -> Hint
        ensures line { result.line ≡ [] }
        ensures place { result.is_of_output ≡ false }
    {
        Hint {
            line: Bytes::new(alloc),
            is_of_output: false,
        }
    }

    /// The line of a subject; an empty one if there is no memory for it.
    pub fn of(alloc: Global, subject: Subject<'_>) -> Hint
        ensures line { IsHint subject.entry result.line }
        ensures place { result.is_of_output ≡ subject.entry.is_of_output }
    {
        match hint_line(alloc, subject) {
            Ok(line) => Hint {
                line,
                is_of_output: subject.is_of_output,
            },
            Err(NoMemory) => Hint {
                line: Bytes::new(alloc),
                is_of_output: subject.is_of_output,
            },
        }
    }
}

// What it is, the thing, its line, and what is wrong with it or wanted in its place.
fn hint_line(alloc: Global, subject: Subject<'_>) -> Result<Bytes, NoMemory>
    ensures { IfOk result (λ line. line ≡ hint_line subject.entry.kind.now (option_map (λ text. text.now) subject.entry.text) subject.entry.line subject.entry.note.now) }
{
    let mut line = Bytes::from_slice(alloc, b"execline: ")?;
    put_plain(subject.kind, &mut line)?;
    put_text(subject.text, &mut line)?;
    put_line(alloc, subject.line, &mut line)?;
    put_note(subject.note, &mut line)?;
    line.append(b"\n")?;
    Ok(line)
}

fn put_text(text: Option<&[u8]>, line: &mut Bytes) -> Result<(), NoMemory>
    ensures { OnOk result (line.new ≡ line.old ++ with_text (option_map (λ text. text.now) text.entry)) }
{
    let Some(text) = text else {
        return Ok(());
    };
    line.append(b" ")?;
    put_shown(text, line)
}

fn put_line(alloc: Global, number: Option<u32>, line: &mut Bytes) -> Result<(), NoMemory>
    ensures { OnOk result (line.new ≡ line.old ++ with_line number) }
{
    let Some(number) = number else {
        return Ok(());
    };
    line.append(b", line ")?;
    line.append(put_u64(alloc, u64::from(number))?.as_bytes())
}

fn put_note(note: &[u8], line: &mut Bytes) -> Result<(), NoMemory>
    ensures { OnOk result (line.new ≡ line.old ++ with_note note.now) }
{
    if note.is_empty() {
        return Ok(());
    }
    line.append(b": ")?;
    put_plain(note, line)
}
