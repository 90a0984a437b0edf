//! An asker for readings that ask nothing.

ghost use Rattle.std.specs.Prelude.{None};
ghost use Rattle.el_test.specs.Asker.{Heard};

use crate::asker::{AskFault, Asker};
use crate::operators::Question;
use el_words::Word;

/// Whom nobody needs to ask: it answers nothing, and tells nothing.
#[derive(Clone, Copy)]
pub struct Nobody;

impl Asker for Nobody {
    ghost heard = { λ _. record { log = None; faults = 0 } };

    #[tactic(auto, unfolding(crate::specs::Asker::extended))]
    fn ask(&mut self, _dir: &Word, _path: &Word, _question: Question) -> Result<bool, AskFault> {
        Err(AskFault::NoMemory)
    }
}
