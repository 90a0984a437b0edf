//! A process on its way through a chain.
ghost use Rattle.std.specs.Prelude.{◌≡◌, ◌-◌, ◌<◌, true, false, []};
ghost use Rattle.el_proc.specs.Processes.{state_of};

use crate::descriptors::Fds;
use crate::kids::Kids;
use el_env::Env;
use el_words::{Word, Words};
use std::alloc::Global;
use std::mem;

/// A process on its way through a chain.
#[derive(Drop)]
pub struct Proc {
    /// What is still to be run.
    pub words: Words,
    /// Its variables.
    pub env: Env,
    /// What its numbers 0 to 63 hold.
    pub fds: Fds,
    /// Its directory, from which paths are taken and in which commands start.
    pub dir: Word,
    /// The processes that it started and didn't wait for.
    pub kids: Kids,
    /// How many units are left.
    pub budget: u64,
}

/// Takes a unit of the budget; false exactly where none is left.
pub fn take_unit(proc: &mut Proc) -> bool
    ensures spent { result ≡ false → proc.old.budget ≡ 0 }
    ensures taken { result ≡ true → 0 < proc.old.budget }
    ensures budget { proc.new.budget ≡ proc.old.budget - 1 }
    ensures state { state_of proc.new ≡ state_of proc.old }
    ensures words { proc.new.words ≡ proc.old.words }
{
    if proc.budget == 0 {
        return false;
    }
    proc.budget -= 1;
    true
}

/// Takes the words of a process, and leaves none.
pub fn take_words(alloc: Global, words: &mut Words) -> Words
    ensures taken { result ≡ words.old }
    ensures left { words.new ≡ [] }
{
    mem::replace(words, Words::new(alloc))
}
