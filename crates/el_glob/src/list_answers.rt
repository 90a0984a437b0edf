//! What a scripted lister is told to answer.
ghost use Rattle.std.specs.Prelude.{◌≡◌, [], ◌∷◌, ◌++◌, length, OnOk, OnErr, slice_get};
ghost use Rattle.std.specs.Option.{option_copied};

use el_words::{NoMemory, Words};
use std::alloc::Global;
use std::marker::Model;

/// What a scripted lister is told to answer.
#[derive(Drop)]
pub enum ListAnswer {
    /// The directory has these names. Names that no directory has count as `NoDirectory`.
    Names(Words),
    /// There is no such directory.
    NoDirectory,
    /// The listing fails.
    Fault,
}

/// A list of answers.
#[derive(Drop)]
pub struct ListAnswers {
    answers: Vec<ListAnswer>,
}

impl Model for ListAnswers {
    ghost use Rattle.std.specs.Prelude.{List};
    ghost use Rattle.std.specs.Coded.{codes};
    ghost use Rattle.el_glob.specs.contracts.list_answers.ListAnswer as answer;
    ghost use Rattle.el_glob.specs.declared.list_answers.ListAnswer.{ListAnswer as ListAnswerValue};

    ghost Value = { List ListAnswerValue };

    ghost coded = { Prim.hlevel (codes, answer.the_row.coded) };

    ghost view = { λ a. a.answers.items };
}

impl ListAnswers {
    /// No answers. Later pushes take their memory from `alloc`.
    pub fn new(alloc: Global) -> ListAnswers
        ensures { result ≡ [] }
    {
        ListAnswers {
            answers: Vec::new(alloc),
        }
    }

    /// How many answers there are.
    pub fn len(&self) -> usize
        ensures { result ≡ length self.now }
    {
        self.answers.len()
    }

    /// The answer at `place`, or None exactly where `place` is at least the length.
    pub fn get(&self, place: usize) -> Option<&ListAnswer>
        ensures { option_copied result ≡ slice_get self.now place }
    {
        self.answers.get(place)
    }

    /// Puts `answer` last. After an error the answers are as before.
    pub fn push(&mut self, answer: ListAnswer) -> Result<(), NoMemory>
        ensures ok { OnOk result (self.new ≡ self.old ++ answer ∷ []) }
        ensures err { OnErr result (self.new ≡ self.old) }
    {
        self.answers.push(answer)?;
        Ok(())
    }
}
