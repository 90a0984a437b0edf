//! A text in the making.
ghost use Rattle.std.specs.Prelude.{◌≡◌, ◌≤◌, ◌+◌, [], ◌∷◌, ◌++◌, length, IfOk, OnOk, vec_len, vec_capacity};
ghost use Rattle.std.specs.Fmt.{decimal};

use el_words::{Bytes, NoMemory};
use std::alloc::Global;
use std::marker::Model;

/// How many bytes wait, at least, when they are put into the text.
const MANY: usize = 4_096;

/// The digits that a number has at most.
const DIGITS: usize = 20;

/// A text that grows by small parts. They wait for one another, so that the text grows by large ones. A
/// contract sees its bytes.
#[derive(Drop)]
pub(crate) struct Printer {
    text: Bytes,
    // The bytes behind the text.
    ahead: Vec<u8>,
}

impl Model for Printer {
    ghost use Rattle.std.specs.Prelude.{List, ℕ, ◌++◌};

    ghost Value = { List ℕ };

    ghost view = { λ p. p.text ++ p.ahead.items };
}

impl Printer {
    /// No bytes.
    pub(crate) fn new(alloc: Global) -> Printer
        ensures { result ≡ [] }
    {
        Printer {
            text: Bytes::new(alloc),
            ahead: Vec::new(alloc),
        }
    }

    /// Its bytes.
    pub(crate) fn into_text(mut self) -> Result<Bytes, NoMemory>
        ensures { IfOk result (λ text. text ≡ self) }
    {
        self.text.append(&self.ahead)?;
        Ok(self.text)
    }

    /// Puts `byte` last.
    #[inline]
    pub(crate) fn push(&mut self, byte: u8) -> Result<(), NoMemory>
        ensures { OnOk result (self.new ≡ self.old ++ byte ∷ []) }
    {
        if self.ahead.len() >= MANY {
            self.move_on()?;
        }
        self.ahead.push(byte)?;
        Ok(())
    }

    /// Puts a number in decimal and a semicolon behind.
    pub(crate) fn number(&mut self, number: u64) -> Result<(), NoMemory>
        ensures { OnOk result (self.new ≡ self.old ++ (decimal number ++ 59 ∷ [])) }
    {
        self.ahead.reserve(DIGITS + 1)?;
        put_digits(number, &mut self.ahead);
        self.ahead.push_reserved(b';');
        Ok(())
    }

    /// Puts a netstring of `bytes` behind.
    pub(crate) fn netstring(&mut self, bytes: &[u8]) -> Result<(), NoMemory>
        ensures { OnOk result (self.new ≡ self.old ++ (decimal (length bytes.now) ++ 58 ∷ (bytes.now ++ 44 ∷ []))) }
    {
        let room = netstring_room(bytes.len())?;
        self.ahead.reserve(room)?;
        put_digits(bytes.len() as u64, &mut self.ahead);
        self.ahead.push_reserved(b':');
        put(bytes, &mut self.ahead);
        self.ahead.push_reserved(b',');
        Ok(())
    }

    // Puts what waits into the text.
    #[cold]
    #[inline(never)]
    fn move_on(&mut self) -> Result<(), NoMemory>
        ensures { OnOk result (self.new ≡ self.old) }
    {
        self.text.append(&self.ahead)?;
        self.ahead.clear();
        Ok(())
    }
}

// Puts a number in decimal behind, for which there is room.
fn put_digits(number: u64, bytes: &mut Vec<u8>)
    requires { vec_len bytes.old + length (decimal number) ≤ vec_capacity bytes.old }
    ensures items { bytes.new.items ≡ bytes.old.items ++ decimal number }
    ensures len { vec_len bytes.new ≡ vec_len bytes.old + length (decimal number) }
    ensures capacity { vec_capacity bytes.new ≡ vec_capacity bytes.old }
{
    if number < 10 {
        bytes.push_reserved(b'0' + number as u8);
        return;
    }
    put_digits(number / 10, bytes);
    bytes.push_reserved(b'0' + (number % 10) as u8);
}

// Puts all of `more` behind, for which there is room.
fn put(more: &[u8], bytes: &mut Vec<u8>)
    requires { vec_len bytes.old + length more.now ≤ vec_capacity bytes.old }
    ensures items { bytes.new.items ≡ bytes.old.items ++ more.now }
    ensures len { vec_len bytes.new ≡ vec_len bytes.old + length more.now }
    ensures capacity { vec_capacity bytes.old ≤ vec_capacity bytes.new }
{
    let _ = bytes.extend_from_slice(more);
}

// How much room takes a netstring of so many bytes at most.
fn netstring_room(len: usize) -> Result<usize, NoMemory>
    ensures { IfOk result (λ room. room ≡ len + 22) }
{
    len.checked_add(DIGITS + 2).ok_or(NoMemory)
}
