//! What a message is about.
ghost use Rattle.std.specs.Prelude.{◌≡◌, [], Some, None};

/// What the next message is about, for the person who reads it. No event tells of it.
#[derive(Clone, Copy)]
pub struct Subject<'a> {
    /// What kind of thing it is, as `variable`; or all that there is to say.
    pub kind: &'static [u8],
    /// The thing, as it was written; None if the kind says all.
    pub text: Option<&'a [u8]>,
    /// The line in the file that `text` names; None if it names no file.
    pub line: Option<u32>,
    /// What is wrong with the thing, or what is wanted in its place; empty if the message says it.
    pub note: &'static [u8],
    /// Whether the next write is output and no message, so that what is said of it goes to standard error.
    pub is_of_output: bool,
}

impl<'a> Subject<'a> {
    /// A thing of a kind.
    pub fn of(kind: &'static [u8], text: &'a [u8]) -> Subject<'a>
        ensures kind { result.kind.now ≡ kind.now }
        ensures text { result.text ≡ Some text.entry }
        ensures line { result.line ≡ None }
        ensures note { result.note.now ≡ [] }
    {
        Subject {
            kind,
            text: Some(text),
            line: None,
            note: b"",
            is_of_output: false,
        }
    }

    /// Nothing but what there is to say.
    pub fn saying(kind: &'static [u8]) -> Subject<'static>
        ensures kind { result.kind.now ≡ kind.now }
        ensures text { result.text ≡ None }
        ensures line { result.line ≡ None }
        ensures note { result.note.now ≡ [] }
    {
        Subject {
            kind,
            text: None,
            line: None,
            note: b"",
            is_of_output: false,
        }
    }

    /// The same with what is wrong with it, or what is wanted in its place.
    pub fn with_note(self, note: &'static [u8]) -> Subject<'a>
        ensures kind { result.kind.now ≡ self.entry.kind.now }
        ensures text { result.text ≡ self.entry.text }
        ensures line { result.line ≡ self.entry.line }
        ensures note { result.note.now ≡ note.now }
    {
        Subject { note, ..self }
    }

    /// The same with the line that it is about.
    pub fn at_line(self, line: u32) -> Subject<'a>
        ensures kind { result.kind.now ≡ self.entry.kind.now }
        ensures text { result.text ≡ self.entry.text }
        ensures line { result.line ≡ Some line }
        ensures note { result.note.now ≡ self.entry.note.now }
    {
        Subject {
            line: Some(line),
            ..self
        }
    }

    /// The same for output that is written next, in place of a message.
    pub fn of_output(self) -> Subject<'a>
        ensures kind { result.kind.now ≡ self.entry.kind.now }
        ensures text { result.text ≡ self.entry.text }
        ensures line { result.line ≡ self.entry.line }
        ensures note { result.note.now ≡ self.entry.note.now }
    {
        Subject {
            is_of_output: true,
            ..self
        }
    }
}
