//! What backslashes mean in quotes.
ghost use Rattle.std.specs.Prelude.{◌≡◌, ◌<◌, ◌≤◌, [], ◌∷◌, length, drop, take, slice_get, Some, Ok, OnOk, IfOk, IfErr, IfSome, Err};
ghost use Rattle.std.specs.List.{prefix_len};
ghost use Rattle.el_lex.specs.Pieces.{named, escape_number};
ghost use Rattle.el_lex.specs.Base.{most_digits, is_digit_in, digits_in, number_escape};
ghost use Rattle.el_lex.specs.Scan.{checked, zero_escape, escape};
ghost use Rattle.el_lex.specs.Escapes.{meant_bytes};
ghost use Rattle.el_lex.specs.Cursors.{IsEscapeRead};

use crate::base::Base;
use crate::cursor::Cursor;
use crate::{LexFault, LexKind};

impl<'a> Cursor<'a> {
    /// The byte that stands for what is behind a backslash in quotes. None is nothing, for an escaped
    /// newline.
    pub(crate) fn escape(&mut self) -> Result<Option<u8>, LexFault>
        ensures ok { IfOk result (λ meant. IsEscapeRead (escape self.old.rest.now) (meant_bytes meant) self.old self.new) }
        ensures nonzero { IfOk result (λ meant. IfSome meant (λ byte. 0 < byte)) }
        ensures err { IfErr result (λ fault. escape self.old.rest.now ≡ Err fault.kind) }
        ensures line { IfErr result (λ fault. fault.line ≡ self.old.line) }
        ensures shorter { length self.new.rest.now ≤ length self.old.rest.now }
    {
        match self.peek() {
            None => Err(self.fault(LexKind::EndAfterBackslash)),
            Some(0) => Err(self.fault(LexKind::Nul)),
            Some(b'0') => Ok(Some(self.zero_escape()?)),
            Some(b'1'..=b'9') => Ok(Some(self.number(Base::Decimal)?)),
            Some(byte) => {
                self.next();
                Ok(named(byte))
            }
        }
    }

    /// An octal or hexadecimal number, from its `0` on.
    fn zero_escape(&mut self) -> Result<u8, LexFault>
        requires { slice_get self.old.rest.now 0 ≡ Some 48 }
        ensures ok { IfOk result (λ byte. IsEscapeRead (zero_escape (drop 1 self.old.rest.now)) (byte ∷ []) self.old self.new) }
        ensures nonzero { IfOk result (λ byte. 0 < byte) }
        ensures err { IfErr result (λ fault. zero_escape (drop 1 self.old.rest.now) ≡ Err fault.kind) }
        ensures line { IfErr result (λ fault. fault.line ≡ self.old.line) }
        ensures shorter { length self.new.rest.now ≤ length self.old.rest.now }
    {
        self.next();
        if self.peek() != Some(b'x') {
            return self.number(Base::Octal);
        }
        self.next();
        match self.peek() {
            Some(byte) if Base::Hexadecimal.has_digit(byte) => self.number(Base::Hexadecimal),
            _ => Err(self.fault(LexKind::BadNumber)),
        }
    }

    /// The byte whose number the next digits write.
    fn number(&mut self, base: Base) -> Result<u8, LexFault>
        ensures value { IfOk result (λ byte. byte ≡ escape_number (number_escape base self.old.rest.now)) }
        ensures ok { OnOk result (checked (number_escape base self.old.rest.now) ≡ Ok (number_escape base self.old.rest.now)) }
        ensures nonzero { IfOk result (λ byte. 0 < byte) }
        ensures err { IfErr result (λ fault. checked (number_escape base self.old.rest.now) ≡ Err fault.kind) }
        ensures fault_line { IfErr result (λ fault. fault.line ≡ self.old.line) }
        ensures rest { self.new.rest.now ≡ drop (length (digits_in base self.old.rest.now)) self.old.rest.now }
        ensures line { self.new.line ≡ self.old.line }
    {
        match u8::try_from(base.number(self.digits(base))) {
            Ok(0) => Err(self.fault(LexKind::NulEscape)),
            Ok(byte) => Ok(byte),
            Err(_) => Err(self.fault(LexKind::ByteTooLarge)),
        }
    }

    /// Takes the longest run of digits within the base's limit.
    fn digits(&mut self, base: Base) -> &'a [u8]
        ensures digits { result.now ≡ digits_in base self.old.rest.now }
        ensures rest { self.new.rest.now ≡ drop (length (digits_in base self.old.rest.now)) self.old.rest.now }
        ensures line { self.new.line ≡ self.old.line }
    {
        let (digits, rest) = self.rest.split_at(count_digits(self.rest, base));
        self.rest = rest;
        digits
    }
}

/// How many digits stand in front, within the base's limit.
fn count_digits(bytes: &[u8], base: Base) -> usize
    ensures { result ≡ prefix_len (is_digit_in base) (take (most_digits base) bytes.now) }
{
    bytes
        .iter()
        .take(base.most())
        .take_while(|byte| base.has_digit(**byte))
        .count()
}

/// The meaning of a backslash in quotes with this byte, which is no digit.
fn named(byte: u8) -> Option<u8>
    requires { 0 < byte }
    ensures value { named byte ≡ meant_bytes result }
    ensures nonzero { IfSome result (λ meant. 0 < meant) }
{
    match byte {
        b'\n' => None,
        b'a' => Some(7),
        b'b' => Some(8),
        b't' => Some(b'\t'),
        b'n' => Some(b'\n'),
        b'v' => Some(11),
        b'f' => Some(12),
        b'r' => Some(b'\r'),
        _ => Some(byte),
    }
}
