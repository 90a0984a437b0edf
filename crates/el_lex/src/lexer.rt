//! Reading a script as tokens.
ghost use Rattle.std.specs.Prelude.{◌≡◌, ◌+◌, ◌<◌, ◌≤◌, length, IfOk, IfErr, OnOk};
ghost use Rattle.el_lex.specs.declared.fault.LexKind.TheVariants.{TooLong as too_long};
ghost use Rattle.el_lex.specs.Reading.{Lexes};
ghost use Rattle.el_lex.specs.Faults.{IsFirstLexFault};
ghost use Rattle.el_lex.specs.Scan.{AtGap, AtComment, in_front, scan, lexed, IsAnswer, IsFaultOf};
ghost use Rattle.el_lex.specs.Cursors.{given};
ghost use Rattle.el_lex.specs.Lexers.{to_come, bytes_left, IsPart, IsPartOf};

use crate::cursor::Cursor;
use crate::ordinary::Inside;
use crate::word::is_whitespace;
use crate::{LexFault, LexKind, Tokens};
use std::alloc::Global;

/// The greatest number of bytes of a script. A limit of this project's own.
pub const MAX_SCRIPT: usize = 1_048_576;

/// The most tokens of a part: so few that they stay near the processor.
pub const MAX_PART: usize = 1_024;

/// The tokens of `script`, or its first fault from the left; too long a script is tested first.
///
/// The fault's kind says when each comes; `LexKind::NoMemory` may come at any script.
///
/// The grammar is execlineb's (https://skarnet.org/software/execline/grammar.html); where it is
/// silent, as on the reading of number escapes, the rules are this project's own.
pub fn lex(alloc: Global, script: &[u8]) -> Result<Tokens, LexFault>
    ensures ok { IfOk result (Lexes script.now) }
    ensures fault { IfErr result (IsFirstLexFault script.now) }
    ensures exact { IsAnswer (lexed script.now) result }
{
    if script.len() > MAX_SCRIPT {
        return Err(LexFault {
            kind: LexKind::TooLong,
            line: 1,
        });
    }
    tokens(alloc, script)
}

/// The tokens of a script that isn't too long.
fn tokens(alloc: Global, script: &[u8]) -> Result<Tokens, LexFault>
    requires { length script.now ≤ MAX_SCRIPT }
    ensures { IsAnswer (scan script.now 0 AtGap 1) result }
{
    // There are no more tokens than bytes.
    let (tokens, _) = read_part(alloc, Cursor::new(script), MAX_SCRIPT)?;
    Ok(tokens)
}

/// The tokens of a script, part by part.
#[derive(Drop)]
pub struct Lexer<'a> {
    pub(crate) cursor: Cursor<'a>,
}

impl<'a> Lexer<'a> {
    /// All of `script` is to come. The one error is `LexKind::TooLong`, on line 1, exactly where the script is too long.
    pub fn new(script: &'a [u8]) -> Result<Lexer<'a>, LexFault>
        ensures ok { IfOk result (λ lexer. to_come lexer ≡ lexed script.now) }
        ensures short { IfOk result (λ lexer. length script.now ≤ MAX_SCRIPT) }
        ensures err { IfErr result (IsFaultOf (lexed script.now)) }
        ensures long { IfErr result (λ fault. MAX_SCRIPT < length script.now) }
        ensures too_long { IfErr result (λ fault. fault.kind ≡ too_long) }
        ensures line { IfErr result (λ fault. fault.line ≡ 1) }
    {
        if script.len() > MAX_SCRIPT {
            return Err(LexFault {
                kind: LexKind::TooLong,
                line: 1,
            });
        }
        Ok(Lexer {
            cursor: Cursor::new(script),
        })
    }

    /// The next `MAX_PART` tokens, or what is left of them; the first fault, if it comes before. After an error what is to come
    /// is as before.
    pub fn next_part(&mut self, alloc: Global) -> Result<Tokens, LexFault>
        ensures ok { IfOk result (λ part. to_come self.old ≡ in_front part (to_come self.new)) }
        ensures whole { IfOk result (λ part. IsPart part self.new) }
        ensures err { IfErr result (IsFaultOf (to_come self.old)) }
        ensures stays { IfErr result (λ fault. self.new ≡ self.old) }
        ensures shorter { IfOk result (λ part. length part + bytes_left self.new ≤ bytes_left self.old) }
    {
        let (part, cursor) = read_part(alloc, self.cursor, MAX_PART)?;
        self.cursor = cursor;
        Ok(part)
    }
}

/// The next tokens, `most` or what is left of them, and what is left behind them.
// The cursor goes in and out by value, so that it isn't in memory meanwhile.
fn read_part<'a>(
    alloc: Global,
    mut cursor: Cursor<'a>,
    most: usize,
) -> Result<(Tokens, Cursor<'a>), LexFault>
    ensures ok { IfOk result (λ read. given AtGap cursor.entry ≡ in_front read.0 (given AtGap read.1)) }
    ensures whole { IfOk result (λ read. IsPartOf most read.0 read.1) }
    ensures err { IfErr result (IsFaultOf (given AtGap cursor.entry)) }
    ensures shorter { IfOk result (λ read. length read.0 + length read.1.rest.now ≤ length cursor.entry.rest.now) }
{
    let mut tokens = Tokens::new(alloc);
    while tokens.len() < most
        && let Some(byte) = cursor.peek()
    {
        if is_whitespace(byte) {
            cursor.next();
        } else if byte == b'#' {
            cursor.next();
            cursor.comment()?;
        } else {
            tokens.push(cursor.token(alloc, byte)?)?;
        }
    }
    Ok((tokens, cursor))
}

impl<'a> Cursor<'a> {
    /// A comment behind its `#`, up to before the next newline or the end.
    fn comment(&mut self) -> Result<(), LexFault>
        ensures ok { OnOk result (given AtComment self.old ≡ given AtGap self.new) }
        ensures err { IfErr result (IsFaultOf (given AtComment self.old)) }
        ensures shorter { length self.new.rest.now ≤ length self.old.rest.now }
    {
        self.ordinary(Inside::Comment);
        match self.peek() {
            Some(0) => Err(self.fault(LexKind::Nul)),
            _ => Ok(()),
        }
    }
}
