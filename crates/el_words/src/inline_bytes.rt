//! Few bytes, which lie in place.
ghost use Rattle.std.specs.Prelude.{◌≡◌, ◌+◌, ◌≤◌, [], ◌++◌, length, false, IsTrue};

use std::marker::Model;

/// How many bytes lie in place at most. With their length and the tag of `Storage` they take 16 bytes.
const ROOM: usize = 12;

/// At most 12 bytes, which lie in place and have no memory of their own. A contract sees their list.
#[derive(Drop)]
pub(crate) struct InlineBytes {
    // Two bytes, so that the others begin at an even place: a word is copied in fewer pieces.
    len: u16,
    bytes: [u8; ROOM],
}

impl Model for InlineBytes {
    ghost use Rattle.std.specs.Prelude.{◌≤◌, List, ℕ, take};

    ghost Value = { List ℕ };

    ghost view = { λ b. take b.len b.bytes };

    ghost invariant = { λ b. b.len ≤ 12 };
}

impl InlineBytes {
    pub(crate) fn new() -> InlineBytes
        ensures { result ≡ [] }
    {
        InlineBytes {
            len: 0,
            bytes: [0; ROOM],
        }
    }

    pub(crate) fn as_slice(&self) -> &[u8]
        ensures { result.now ≡ self.now }
    {
        &self.bytes[..usize::from(self.len)]
    }

    /// Puts all of `more` behind, and answers whether there was room for it. If not, the bytes are as before.
    #[inline]
    pub(crate) fn append(&mut self, more: &[u8]) -> bool
        ensures put { IsTrue result → self.new ≡ self.old ++ more.now }
        ensures full { result ≡ false → self.new ≡ self.old }
        ensures room { length self.old + length more.now ≤ 12 → IsTrue result }
    {
        let place = usize::from(self.len);
        if more.len() > ROOM - place {
            return false;
        }
        self.bytes[place..place + more.len()].copy_from_slice(more);
        self.len += more.len() as u16;
        true
    }
}
