//! The answers that a scripted asker is given.

ghost use Rattle.std.specs.Prelude.{◌≡◌, [], ◌∷◌, ◌++◌, length, OnOk, OnErr, slice_get};
ghost use Rattle.std.specs.Option.{option_copied};

use el_words::NoMemory;
use std::alloc::Global;
use std::marker::Model;

/// What a scripted asker is told to answer to an ask.
#[derive(Clone, Copy, PartialEq, Eq)]
pub enum AskAnswer {
    /// It is so.
    Yes,
    /// It isn't.
    No,
    /// The ask fails.
    Fault,
}

/// A list of answers.
#[derive(Drop)]
pub struct AskAnswers {
    answers: Vec<AskAnswer>,
}

impl Model for AskAnswers {
    ghost use Rattle.std.specs.Prelude.{List};
    ghost use Rattle.std.specs.Coded.{codes};
    ghost use Rattle.el_test.specs.contracts.ask_answers.AskAnswer as answer;
    ghost use Rattle.el_test.specs.declared.ask_answers.AskAnswer.{AskAnswer as AnswerValue};

    ghost Value = { List AnswerValue };

    ghost coded = { Prim.hlevel (codes, answer.the_row.coded) };

    ghost view = { λ a. a.answers.items };
}

impl AskAnswers {
    /// No answers. Later pushes take their memory from `alloc`.
    pub fn new(alloc: Global) -> AskAnswers
        ensures { result ≡ [] }
    {
        AskAnswers {
            answers: Vec::new(alloc),
        }
    }

    /// How many answers there are.
    pub fn len(&self) -> usize
        ensures { result ≡ length self.now }
    {
        self.answers.len()
    }

    /// The answer at `place`, or None exactly where `place` is at least the length.
    pub fn get(&self, place: usize) -> Option<&AskAnswer>
        ensures { option_copied result ≡ slice_get self.now place }
    {
        self.answers.get(place)
    }

    /// Puts `answer` last. After an error the answers are as before.
    pub fn push(&mut self, answer: AskAnswer) -> Result<(), NoMemory>
        ensures ok { OnOk result (self.new ≡ self.old ++ answer ∷ []) }
        ensures err { OnErr result (self.new ≡ self.old) }
    {
        self.answers.push(answer)?;
        Ok(())
    }
}
