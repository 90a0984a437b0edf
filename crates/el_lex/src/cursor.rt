//! What is left of a script, with its line.
ghost use Rattle.std.specs.Prelude.{◌≡◌, ◌+◌, ◌<◌, ◌≤◌, length, drop, take, slice_get};
ghost use Rattle.el_lex.specs.declared.lexer.TheConstants.{MAX_SCRIPT};
ghost use Rattle.el_lex.specs.Scan.{line_after};

use crate::{LexFault, LexKind};

/// What is left of a script, and the line on which it begins.
#[derive(Clone, Copy)]
pub(crate) struct Cursor<'a> {
    pub(crate) rest: &'a [u8],
    pub(crate) line: u32,
    ghost within: { line + length rest.now ≤ MAX_SCRIPT + 1 },
}

impl<'a> Cursor<'a> {
    /// All of `script`, from its first line on.
    pub(crate) fn new(script: &'a [u8]) -> Cursor<'a>
        requires { length script.now ≤ MAX_SCRIPT }
        ensures rest { result.rest.now ≡ script.now }
        ensures line { result.line ≡ 1 }
    {
        Cursor {
            rest: script,
            line: 1,
        }
    }

    /// The next byte, which stays.
    pub(crate) fn peek(&self) -> Option<u8>
        ensures { result ≡ slice_get self.now.rest.now 0 }
    {
        self.rest.first().copied()
    }

    /// Takes the next byte.
    pub(crate) fn next(&mut self) -> Option<u8>
        ensures next { result ≡ slice_get self.old.rest.now 0 }
        ensures rest { self.new.rest.now ≡ drop 1 self.old.rest.now }
        ensures line { self.new.line ≡ line_after self.old.line (take 1 self.old.rest.now) }
    {
        let (byte, rest) = self.rest.split_first()?;
        self.rest = rest;
        if *byte == b'\n' {
            self.line += 1;
        }
        Some(*byte)
    }

    /// A fault of this kind on this line.
    pub(crate) fn fault(&self, kind: LexKind) -> LexFault
        ensures { result ≡ record { kind = kind; line = self.now.line } }
    {
        LexFault {
            kind,
            line: self.line,
        }
    }
}
