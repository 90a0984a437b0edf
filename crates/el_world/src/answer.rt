//! What a scripted world is told to answer.
ghost use Rattle.std.specs.Prelude.{◌≡◌, [], ◌∷◌, ◌++◌, length, OnOk, OnErr, slice_get};
ghost use Rattle.std.specs.Option.{option_copied};

use crate::Ended;
use el_words::{Bytes, NoMemory, Word};
use std::alloc::Global;
use std::marker::Model;

/// What a scripted world is told to answer to a call. One that doesn't fit the call counts as `Plain`.
#[derive(Drop)]
pub enum Answer {
    /// What goes well: the next process, an end with status 0, the next handle or the next two, the end
    /// of input, a whole write, the path itself.
    Plain,
    /// The call fails.
    Fault,
    /// The command isn't found. It fits a start.
    NotFound,
    /// The command can't be started. It fits a start.
    NotStartable,
    /// The process ended so. It fits a wait; a signal out of range counts as `Plain`.
    Ended(Ended),
    /// These bytes were read. It fits a read; more than `MAX_PIECE` bytes count as `Plain`.
    Piece(Bytes),
    /// The directory's name. It fits an enter.
    Path(Word),
}

/// A list of answers.
#[derive(Drop)]
pub struct Answers {
    answers: Vec<Answer>,
}

impl Model for Answers {
    ghost use Rattle.std.specs.Prelude.{List};
    ghost use Rattle.std.specs.Coded.{codes};
    ghost use Rattle.el_world.specs.contracts.answer.Answer as answer;
    ghost use Rattle.el_world.specs.declared.answer.Answer.{Answer as AnswerValue};

    ghost Value = { List AnswerValue };

    ghost coded = { Prim.hlevel (codes, answer.the_row.coded) };

    ghost view = { λ a. a.answers.items };
}

impl Answers {
    /// No answers. Later pushes take their memory from `alloc`.
    pub fn new(alloc: Global) -> Answers
        ensures { result ≡ [] }
    {
        Answers {
            answers: Vec::new(alloc),
        }
    }

    /// How many answers there are.
    pub fn len(&self) -> usize
        ensures { result ≡ length self.now }
    {
        self.answers.len()
    }

    /// The answer at `place`, or None exactly where `place` is at least the length.
    pub fn get(&self, place: usize) -> Option<&Answer>
        ensures { option_copied result ≡ slice_get self.now place }
    {
        self.answers.get(place)
    }

    /// Puts `answer` last. After an error the answers are as before.
    pub fn push(&mut self, answer: Answer) -> Result<(), NoMemory>
        ensures ok { OnOk result (self.new ≡ self.old ++ answer ∷ []) }
        ensures err { OnErr result (self.new ≡ self.old) }
    {
        self.answers.push(answer)?;
        Ok(())
    }
}
