//! The asker over the operating system.

ghost use Rattle.std.specs.Prelude.{◌≡◌, None, IfOk};
ghost use Rattle.std.specs.Option.{option_copied};
ghost use Rattle.el_test.specs.PathNames.{name_from, is_told_alone, is_rooted};

use crate::asker::{AskFault, Asker};
use crate::operators::Question;
use crate::system::answer_of;
use el_words::{NoMemory, Word};
use std::rt::Files;

/// The name of the process's own directory.
pub const OWN_DIRECTORY: &[u8] = b".";

/// The outside itself. It tells no log; each failed ask raises its count of faults, which stands still at the
/// greatest u64.
#[derive(Drop)]
pub struct RealAsker<R: Files + Drop> {
    rt: R,
    faults: u64,
}

impl<R: Files + Drop> RealAsker<R> {
    /// The outside, before any ask of this process.
    pub fn new(rt: R) -> RealAsker<R>
        ensures { result.faults ≡ 0 }
    {
        RealAsker { rt, faults: 0 }
    }
}

impl<R: Files + Drop> Asker for RealAsker<R> {
    ghost heard = { λ asker. record { log = None; faults = asker.faults } };

    #[tactic(auto, unfolding(crate::specs::Asker::extended))]
    fn ask(&mut self, dir: &Word, path: &Word, question: Question) -> Result<bool, AskFault> {
        let answer = answer_from(&self.rt, dir, path, question);
        if answer == Err(AskFault::Failed) {
            self.faults = self.faults.saturating_add(1);
        }
        answer
    }
}

fn answer_from(
    rt: &impl Files,
    dir: &Word,
    path: &Word,
    question: Question,
) -> Result<bool, AskFault> {
    answer_of(rt, name_from(dir, path)?.as_bytes(), question)
}

// What a path means from a directory, as the system is told it.
fn name_from(dir: &Word, path: &Word) -> Result<Word, NoMemory>
    ensures { IfOk result (λ name. name ≡ name_from dir.now path.now) }
{
    if is_told_alone(dir.as_bytes(), path.as_bytes()) {
        return path.copy();
    }
    let mut name = dir.copy()?;
    name.push(b'/')?;
    name.append(path.as_bytes())?;
    Ok(name)
}

#[tactic(auto, unfolding(crate::specs::PathNames::is_told_alone))]
fn is_told_alone(dir: &[u8], path: &[u8]) -> bool
    ensures { result ≡ is_told_alone dir.now path.now }
{
    is_rooted(path.first()) || dir == OWN_DIRECTORY
}

// Whether it begins at the root; the empty path, which means nothing, is told alone too.
fn is_rooted(first: Option<&u8>) -> bool
    ensures { result ≡ is_rooted (option_copied first.entry) }
{
    match first {
        Some(byte) => *byte == b'/',
        None => true,
    }
}
