//! What is asked of paths, and who answers.

ghost use Rattle.std.specs.Prelude.{◌≡◌};
ghost use Rattle.el_test.specs.Asker.{Heard, extended, ask_told, HasCause};
ghost use Rattle.el_test.specs.declared.asker.AskFault.TheVariants.{NoMemory as no_memory};

use crate::operators::Question;
use el_words::{NoMemory, Word};

/// Why an ask has no answer.
#[derive(Clone, Copy, Debug, PartialEq, Eq)]
pub enum AskFault {
    /// The system refused to say. It comes only where the count of faults rose.
    Failed,
    /// There was no memory for it.
    NoMemory,
}

impl From<NoMemory> for AskFault {
    ghost from_gives = { λ _ fault. fault ≡ no_memory };

    fn from(_: NoMemory) -> Self {
        AskFault::NoMemory
    }
}

/// An ask and its answer, which is never `NoMemory`.
#[derive(Drop)]
pub struct AskEvent {
    pub dir: Word,
    pub path: Word,
    pub question: Question,
    pub answer: Result<bool, AskFault>,
}

/// Who answers what is asked of paths.
///
/// An ask that answers `NoMemory` adds no event to the log; every other adds exactly one, itself with its
/// answer. The count of faults never falls, and `Failed` comes only where it rose in the ask.
pub trait Asker {
    /// The events so far, where this asker tells them, and how many asks have failed.
    ghost heard: { Self → Heard };

    /// Asks this of the path, taken from the directory `dir`.
    fn ask(&mut self, dir: &Word, path: &Word, question: Question) -> Result<bool, AskFault>
        ensures log { (heard self.new).log ≡ extended (heard self.old).log (ask_told dir.now path.now question result) }
        ensures cause { HasCause (heard self.old).faults (heard self.new).faults result AskFault.Failed };
}
