//! Words: bytes without NUL.
ghost use Rattle.std.specs.Prelude.{◌≡◌, ◌<◌, List, ℕ, [], ◌∷◌, ◌++◌, IfOk, OnOk, OnErr, IsErrOf, ◌↔◌};
ghost use Rattle.el_words.specs.Word.{HasNul};
ghost use Rattle.el_words.specs.declared.word.WordFault.TheVariants.{NoMemory as no_memory};

use crate::NoMemory;
use crate::storage::Storage;
use std::alloc::{AllocError, Global};
use std::error::Error;
use std::fmt;
use std::marker::Model;

/// Bytes without NUL: an argument, a variable's name or value, or a path. A contract sees their
/// list.
#[derive(Drop)]
pub struct Word {
    alloc: Global,
    storage: Storage,
}

impl Model for Word {
    ghost use Rattle.std.specs.Prelude.{List, ℕ};
    ghost use Rattle.el_words.specs.Word.{HasNul};
    ghost use Rattle.el_words.specs.Storage.{stored};

    ghost Value = { List ℕ };

    ghost view = { λ w. stored w.storage };

    ghost invariant = { λ w. HasNul (stored w.storage) → ⊥ };
}

/// Why bytes are no word.
#[derive(Clone, Copy, Debug, PartialEq, Eq)]
pub enum WordFault {
    /// A NUL byte stands among them.
    Nul,
    /// There is no memory for the word.
    NoMemory,
}

impl fmt::Display for WordFault {
    fn fmt<W: fmt::Write>(&self, f: &mut fmt::Formatter<W>) -> fmt::Result {
        f.write_str(match self {
            WordFault::Nul => "NUL byte in a word",
            WordFault::NoMemory => "no memory",
        })
    }
}

impl Error for WordFault {}

impl From<AllocError> for WordFault {
    ghost from_gives = { λ _ e. e ≡ no_memory };

    fn from(_: AllocError) -> Self {
        WordFault::NoMemory
    }
}

impl From<NoMemory> for WordFault {
    ghost from_gives = { λ _ e. e ≡ no_memory };

    fn from(_: NoMemory) -> Self {
        WordFault::NoMemory
    }
}

impl Word {
    /// The word without bytes. Later pushes take their memory from `alloc`.
    pub fn new(alloc: Global) -> Word
        ensures { result ≡ [] }
    {
        Word {
            alloc,
            storage: Storage::new(),
        }
    }

    /// A copy of `bytes`, refused as `Nul` exactly where one of them is 0.
    pub fn from_bytes(alloc: Global, bytes: &[u8]) -> Result<Word, WordFault>
        ensures same { IfOk result (λ word. word ≡ bytes.now) }
        ensures nul { IsErrOf result WordFault.Nul → HasNul bytes.now }
        ensures no_nul { (result ≡ Err WordFault.Nul → ⊥) → HasNul bytes.now → ⊥ }
    {
        if bytes.contains(&0) {
            return Err(WordFault::Nul);
        }
        Ok(Word {
            alloc,
            storage: Storage::from_slice(alloc, bytes)?,
        })
    }

    /// The word of bytes that are known to hold no NUL.
    #[inline]
    pub fn of(alloc: Global, bytes: &[u8]) -> Result<Word, NoMemory>
        requires { HasNul bytes.now → ⊥ }
        ensures { IfOk result (λ word. word ≡ bytes.now) }
    {
        Ok(Word {
            alloc,
            storage: Storage::from_slice(alloc, bytes)?,
        })
    }

    /// The bytes, none of which is NUL.
    pub fn as_bytes(&self) -> &[u8]
        ensures same { result.now ≡ self.now }
        ensures no_nul { HasNul self.now → ⊥ }
    {
        self.storage.as_slice()
    }

    /// Puts `byte`, which isn't NUL, last. After an error the word is as before.
    #[inline]
    pub fn push(&mut self, byte: u8) -> Result<(), NoMemory>
        requires { 0 < byte }
        ensures ok { OnOk result (self.new ≡ self.old ++ byte ∷ []) }
        ensures err { OnErr result (self.new ≡ self.old) }
    {
        self.append(&[byte])
    }

    /// Puts all of `more` behind, which holds no NUL. After an error the word is as before.
    #[inline]
    pub fn append(&mut self, more: &[u8]) -> Result<(), NoMemory>
        requires { HasNul more.now → ⊥ }
        ensures ok { OnOk result (self.new ≡ self.old ++ more.now) }
        ensures err { OnErr result (self.new ≡ self.old) }
    {
        Ok(self.storage.append(self.alloc, more)?)
    }

    /// The same word again.
    pub fn copy(&self) -> Result<Word, NoMemory>
        ensures { IfOk result (λ word. word ≡ self.now) }
    {
        Ok(self.clone()?)
    }
}

impl Clone for Word {
    ghost is_clone = { λ word copy. copy ≡ word };

    fn clone(&self) -> Result<Word, AllocError> {
        Ok(Word {
            alloc: self.alloc,
            storage: Storage::from_slice(self.alloc, self.storage.as_slice())?,
        })
    }
}
