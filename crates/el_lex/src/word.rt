//! Reading a word, quoted or not.
ghost use Rattle.std.specs.Prelude.{◌≡◌, ◌≢◌, ◌⊎◌, true, ℕ, ◌<◌, ◌≤◌, ◌&&◌, ◌==◌, false, [], ◌∷◌, length, drop, slice_get, Some, Ok, Err, OnOk, IfOk, IfErr};
ghost use Rattle.el_lex.specs.Bytes.{is_whitespace, is_over_or};
ghost use Rattle.el_lex.specs.Scan.{AtGap, AtWord, lone_brace, escaped_step, escape, escape_step, in_front, IsFaultOf};
ghost use Rattle.el_lex.specs.Cursors.{in_word, in_quotes, given, given_by};

use crate::cursor::Cursor;
use crate::draft::Draft;
use crate::ordinary::Inside;
use crate::{LexFault, LexKind, Token};
use el_words::Word;
use std::alloc::Global;

/// Whether `byte` is a space, a tab, a newline or a carriage return.
pub(crate) fn is_whitespace(byte: u8) -> bool
    ensures { result ≡ is_whitespace byte }
{
    byte <= b' ' && matches!(byte, b' ' | b'\t' | b'\n' | b'\r')
}

impl<'a> Cursor<'a> {
    /// The token that begins with `byte`, the next one, which begins neither a gap nor a comment.
    pub(crate) fn token(&mut self, alloc: Global, byte: u8) -> Result<Token, LexFault>
        requires next { slice_get self.old.rest.now 0 ≡ Some byte }
        requires no_gap { is_whitespace byte ≡ false }
        requires no_comment { byte ≢ 35 }
        ensures ok { IfOk result (λ token. given AtGap self.old ≡ in_front (token ∷ []) (given AtGap self.new)) }
        ensures err { IfErr result (IsFaultOf (given AtGap self.old)) }
        ensures shorter { OnOk result (length self.new.rest.now < length self.old.rest.now) }
    {
        match self.lone_brace(byte) {
            Some(brace) => {
                self.next();
                Ok(brace)
            }
            None => self.word(alloc),
        }
    }

    /// The token of `byte`, the next one, if it is a brace and a whole word.
    fn lone_brace(&self, byte: u8) -> Option<Token>
        ensures { result ≡ lone_brace self.now.line byte (drop 1 self.now.rest.now) }
    {
        if !matches!(byte, b'{' | b'}') || !self.is_lone() {
            return None;
        }
        match byte {
            b'{' => Some(Token::Open { line: self.line }),
            b'}' => Some(Token::Close { line: self.line }),
            _ => None,
        }
    }

    /// Whether behind the next byte there is whitespace or nothing.
    fn is_lone(&self) -> bool
        ensures { result ≡ is_over_or is_whitespace (drop 1 self.now.rest.now) }
    {
        self.rest.get(1).is_none_or(|byte| is_whitespace(*byte))
    }

    /// A word, up to before the next whitespace or the end.
    fn word(&mut self, alloc: Global) -> Result<Token, LexFault>
        ensures ok { IfOk result (λ token. given (AtWord self.old.line []) self.old ≡ in_front (token ∷ []) (given AtGap self.new)) }
        ensures err { IfErr result (IsFaultOf (given (AtWord self.old.line []) self.old)) }
        ensures shorter { OnOk result ((byte : ℕ) → slice_get self.old.rest.now 0 ≡ Some byte → is_whitespace byte ≡ false → length self.new.rest.now < length self.old.rest.now) }
    {
        let line = self.line;
        let run = self.ordinary(Inside::Word);
        // Most words are one run, which needs no draft.
        if self.is_over() {
            let word = Word::of(alloc, run)?;
            return Ok(Token::Word { line, word });
        }
        let mut draft = Draft::of(alloc, run, line)?;
        self.pieces(&mut draft)?;
        Ok(draft.into_token())
    }

    /// Whether a word is over here: before whitespace and at the end.
    fn is_over(&self) -> bool
        ensures { result ≡ is_over_or is_whitespace self.now.rest.now }
    {
        self.rest.first().is_none_or(|byte| is_whitespace(*byte))
    }

    /// All pieces of a word.
    fn pieces(&mut self, draft: &mut Draft) -> Result<(), LexFault>
        ensures ok { OnOk result (given (in_word draft.old) self.old ≡ given (in_word draft.new) self.new) }
        ensures over { OnOk result (is_over_or is_whitespace self.new.rest.now ≡ true) }
        ensures err { IfErr result (IsFaultOf (given (in_word draft.old) self.old)) }
        ensures shorter { OnOk result ((self.new.rest.now ≡ self.old.rest.now) ⊎ (length self.new.rest.now < length self.old.rest.now)) }
    {
        while let Some(byte) = self.peek()
            && !is_whitespace(byte)
        {
            self.piece(byte, draft)?;
        }
        Ok(())
    }

    /// The piece of a word that begins with `byte`, the next one, or the run of ordinary bytes from it on.
    fn piece(&mut self, byte: u8, draft: &mut Draft) -> Result<(), LexFault>
        requires next { slice_get self.old.rest.now 0 ≡ Some byte }
        requires no_gap { is_whitespace byte ≡ false }
        ensures ok { OnOk result (given (in_word draft.old) self.old ≡ given (in_word draft.new) self.new) }
        ensures err { IfErr result (IsFaultOf (given (in_word draft.old) self.old)) }
        ensures shorter { OnOk result (length self.new.rest.now < length self.old.rest.now) }
    {
        match byte {
            0 => Err(self.fault(LexKind::Nul)),
            b'"' => {
                self.next();
                self.quoted(draft)
            }
            b'\\' => {
                self.next();
                self.escaped(draft)
            }
            _ => Ok(draft.append(self.ordinary(Inside::Word))?),
        }
    }

    /// The byte behind a backslash outside quotes.
    fn escaped(&mut self, draft: &mut Draft) -> Result<(), LexFault>
        ensures ok { OnOk result (given_by (escaped_step draft.old.line draft.old.bytes self.old.line self.old.rest.now) self.old ≡ given (in_word draft.new) self.new) }
        ensures err { IfErr result (IsFaultOf (given_by (escaped_step draft.old.line draft.old.bytes self.old.line self.old.rest.now) self.old)) }
        ensures shorter { length self.new.rest.now ≤ length self.old.rest.now }
    {
        match self.next() {
            None => Err(self.fault(LexKind::EndAfterBackslash)),
            Some(0) => Err(self.fault(LexKind::Nul)),
            Some(byte) => Ok(draft.push(byte)?),
        }
    }

    /// A quoted string, behind its opening quote.
    fn quoted(&mut self, draft: &mut Draft) -> Result<(), LexFault>
        ensures ok { OnOk result (given (in_quotes draft.old self.old.line) self.old ≡ given (in_word draft.new) self.new) }
        ensures err { IfErr result (IsFaultOf (given (in_quotes draft.old self.old.line) self.old)) }
        ensures shorter { length self.new.rest.now ≤ length self.old.rest.now }
    {
        let opening = self.fault(LexKind::OpenQuote);
        loop {
            draft.append(self.ordinary(Inside::Quotes))?;
            match self.next() {
                None => return Err(opening),
                Some(b'"') => return Ok(()),
                Some(0) => return Err(self.fault(LexKind::Nul)),
                Some(b'\\') => self.escape_into(draft)?,
                Some(newline) => draft.push(newline)?,
            }
        }
    }

    /// The meaning of what is behind a backslash in quotes.
    fn escape_into(&mut self, draft: &mut Draft) -> Result<(), LexFault>
        ensures ok { OnOk result ((opened : ℕ) → given_by (escape_step draft.old.line draft.old.bytes opened self.old.line (escape self.old.rest.now)) self.old ≡ given (in_quotes draft.new opened) self.new) }
        ensures err { IfErr result (λ fault. (opened : ℕ) → IsFaultOf (given_by (escape_step draft.old.line draft.old.bytes opened self.old.line (escape self.old.rest.now)) self.old) fault) }
        ensures shorter { length self.new.rest.now ≤ length self.old.rest.now }
    {
        if let Some(byte) = self.escape()? {
            draft.push(byte)?;
        }
        Ok(())
    }
}
