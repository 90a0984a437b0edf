//! Reading the text of a component.
ghost use Rattle.std.specs.Prelude.{◌≡◌, ◌<◌, ◌≤◌, ◌+◌, ℕ, Bool, List, [], ◌∷◌, ◌++◌, length, drop, slice_get, is_some, if◌then◌else◌, IfOk, IfErr, OnOk};
ghost use Rattle.el_glob.specs.declared.piece.Span.{Span as TheSpan};
ghost use Rattle.el_glob.specs.Reading.{AtPiece, AtSet, InSet, step, item_step, last_of, in_front, after_step, pieces_from, IsFaultOf};

use crate::fault::PatternFault;
use crate::piece::{Piece, Span, Spans};
use std::alloc::Global;

/// What is left of a component's text.
#[derive(Clone, Copy)]
pub(crate) struct Reader<'a> {
    pub(crate) rest: &'a [u8],
}

impl<'a> Reader<'a> {
    /// The next byte, which stays.
    fn peek(&self) -> Option<u8>
        ensures { result ≡ slice_get self.now.rest.now 0 }
    {
        self.rest.first().copied()
    }

    /// Takes the next byte.
    pub(crate) fn next(&mut self) -> Option<u8>
        ensures next { result ≡ slice_get self.old.rest.now 0 }
        ensures rest { self.new.rest.now ≡ drop 1 self.old.rest.now }
    {
        let (byte, rest) = self.rest.split_first()?;
        self.rest = rest;
        Some(*byte)
    }

    /// The piece that begins with `byte`, which was taken.
    pub(crate) fn piece(&mut self, alloc: Global, byte: u8) -> Result<Piece, PatternFault>
        ensures ok { IfOk result (λ piece. after_step (pieces_from self.old.rest.now) (step AtPiece byte self.old.rest.now) ≡ in_front (piece ∷ []) (pieces_from self.new.rest.now 0 AtPiece)) }
        ensures err { IfErr result (IsFaultOf (after_step (pieces_from self.old.rest.now) (step AtPiece byte self.old.rest.now))) }
        ensures shorter { length self.new.rest.now ≤ length self.old.rest.now }
    {
        match byte {
            b'*' => Ok(Piece::Star),
            b'?' => Ok(Piece::Any),
            b'\\' => match self.next() {
                Some(escaped) => Ok(Piece::Byte(escaped)),
                None => Err(PatternFault::Bad),
            },
            b'[' => self.set(alloc),
            _ => Ok(Piece::Byte(byte)),
        }
    }

    /// A set, behind its `[`.
    fn set(&mut self, alloc: Global) -> Result<Piece, PatternFault>
        ensures ok { IfOk result (λ piece. pieces_from self.old.rest.now 0 AtSet ≡ in_front (piece ∷ []) (pieces_from self.new.rest.now 0 AtPiece)) }
        ensures err { IfErr result (IsFaultOf (pieces_from self.old.rest.now 0 AtSet)) }
        ensures shorter { length self.new.rest.now ≤ length self.old.rest.now }
    {
        let not = self.sign();
        let mut spans = Spans::new(alloc);
        loop {
            let Some(low) = self.next() else {
                return Err(PatternFault::Bad);
            };
            if low == b']' {
                if spans.is_empty() {
                    return Err(PatternFault::Bad);
                }
                return Ok(Piece::Set { not, spans });
            }
            spans.push(self.item(low)?)?;
        }
    }

    /// Takes the sign `!`, if it is next, and tells whether it was.
    fn sign(&mut self) -> bool
        ensures same { pieces_from self.old.rest.now 0 AtSet ≡ pieces_from self.new.rest.now 0 (InSet result []) }
        ensures shorter { length self.new.rest.now ≤ length self.old.rest.now }
    {
        match self.peek() {
            Some(b'!') => {
                self.next();
                true
            }
            _ => false,
        }
    }

    /// The item of a set that begins with `low`, which was taken.
    fn item(&mut self, low: u8) -> Result<Span, PatternFault>
        ensures ok { IfOk result (λ span. (negated : Bool) → (spans : List TheSpan) → after_step (pieces_from self.old.rest.now) (item_step negated spans low (last_of self.old.rest.now)) ≡ pieces_from self.new.rest.now 0 (InSet negated (spans ++ span ∷ []))) }
        ensures err { IfErr result (λ fault. (negated : Bool) → (spans : List TheSpan) → IsFaultOf (after_step (pieces_from self.old.rest.now) (item_step negated spans low (last_of self.old.rest.now))) fault) }
        ensures shorter { length self.new.rest.now ≤ length self.old.rest.now }
    {
        match self.last() {
            None => Ok(Span { low, high: low }),
            Some(high) => {
                if high < low {
                    return Err(PatternFault::Bad);
                }
                Ok(Span { low, high })
            }
        }
    }

    /// Takes the last byte of a range with the `-` before it, if they are next.
    fn last(&mut self) -> Option<u8>
        ensures last { result ≡ last_of self.old.rest.now }
        ensures rest { self.new.rest.now ≡ drop (if is_some result then 2 else 0) self.old.rest.now }
    {
        if self.rest.len() < 2 || self.rest[0] != b'-' || self.rest[1] == b']' {
            return None;
        }
        let high = self.rest[1];
        self.rest = &self.rest[2..];
        Some(high)
    }
}
