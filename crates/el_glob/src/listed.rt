//! What lists of directories hold.
ghost use Rattle.std.specs.Prelude.{◌≡◌};
ghost use Rattle.el_glob.specs.declared.listed.ListFault.TheVariants.{NoMemory as no_memory};

use el_words::{NoMemory, Word, Words};
use std::error::Error;
use std::fmt;

/// What a directory is.
#[derive(Drop)]
pub enum Listed {
    /// It has these names: they differ, none is empty or holds `/`, and none is `.` or `..`.
    Names(Words),
    /// There is no such directory.
    NoDirectory,
}

/// Why a directory was not listed.
#[derive(Clone, Copy, Debug, PartialEq, Eq)]
pub enum ListFault {
    /// The outside refused it. It comes only where the count of faults rose.
    Failed,
    /// There was no memory for it.
    NoMemory,
}

impl fmt::Display for ListFault {
    fn fmt<W: fmt::Write>(&self, f: &mut fmt::Formatter<W>) -> fmt::Result {
        f.write_str(match self {
            ListFault::Failed => "listing failed",
            ListFault::NoMemory => "no memory",
        })
    }
}

impl Error for ListFault {}

impl From<NoMemory> for ListFault {
    ghost from_gives = { λ _ e. e ≡ no_memory };

    fn from(_: NoMemory) -> Self {
        ListFault::NoMemory
    }
}

/// A listing: the directory that `path` means from `dir`, and the answer, which is never `NoMemory`.
#[derive(Drop)]
pub struct ListEvent {
    pub dir: Word,
    pub path: Word,
    pub answer: Result<Listed, ListFault>,
}
