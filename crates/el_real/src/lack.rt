//! Why the system doesn't serve.
ghost use Rattle.std.specs.Prelude.{◌≡◌};
ghost use Rattle.std.specs.IoError.{error_kind, raw_os_error};
ghost use Rattle.el_real.specs.Lacks.{lack_of, lack_of_word, fault_of, start_fault_of};
ghost use Rattle.el_real.specs.declared.lack.Lack.TheVariants.{NoMemory as no_memory};

use el_words::{NoMemory, WordFault};
use el_world::{Fault, StartFault};
use std::alloc::{AllocError, AllocFailed};
use std::io::{self, ErrorKind};

/// Why something can't be had from the system, or can't be handed to it.
#[derive(Clone, Copy, PartialEq, Eq)]
pub enum Lack {
    /// The system refuses, by an error of this number.
    Refused(i32),
    /// Something that it is to be told isn't UTF-8, as the library wants it.
    NotText,
    /// There is none, and the system says nothing of it.
    Failed,
    /// There is no memory for it.
    NoMemory,
}

impl From<io::Error> for Lack {
    ghost from_gives = { λ error lack. lack ≡ lack_of (error_kind error) (raw_os_error error) };

    fn from(error: io::Error) -> Self {
        match error.kind() {
            ErrorKind::OutOfMemory => Lack::NoMemory,
            kind => match error.raw_os_error() {
                Some(number) => Lack::Refused(number),
                // The library says so of a name that it can't hand on, in either way.
                None if kind == ErrorKind::InvalidFilename => Lack::NotText,
                None => Lack::Failed,
            },
        }
    }
}

impl From<AllocError> for Lack {
    ghost from_gives = { λ _ lack. lack ≡ no_memory };

    fn from(_: AllocError) -> Self {
        Lack::NoMemory
    }
}

impl<T: Drop> From<AllocFailed<T>> for Lack {
    ghost from_gives = { λ _ lack. lack ≡ no_memory };

    fn from(_: AllocFailed<T>) -> Self {
        Lack::NoMemory
    }
}

impl From<NoMemory> for Lack {
    ghost from_gives = { λ _ lack. lack ≡ no_memory };

    fn from(_: NoMemory) -> Self {
        Lack::NoMemory
    }
}

impl From<WordFault> for Lack {
    ghost from_gives = { λ fault lack. lack ≡ lack_of_word fault };

    fn from(fault: WordFault) -> Self {
        match fault {
            WordFault::Nul => Lack::Failed,
            WordFault::NoMemory => Lack::NoMemory,
        }
    }
}

impl From<Lack> for Fault {
    ghost from_gives = { λ lack fault. fault ≡ fault_of lack };

    fn from(lack: Lack) -> Self {
        match lack {
            Lack::Refused(_) | Lack::NotText | Lack::Failed => Fault::Failed,
            Lack::NoMemory => Fault::NoMemory,
        }
    }
}

impl From<Lack> for StartFault {
    ghost from_gives = { λ lack fault. fault ≡ start_fault_of lack };

    fn from(lack: Lack) -> Self {
        match lack {
            Lack::Refused(_) | Lack::NotText | Lack::Failed => StartFault::Failed,
            Lack::NoMemory => StartFault::NoMemory,
        }
    }
}
