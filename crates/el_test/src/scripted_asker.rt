//! An asker in memory.

ghost use Rattle.std.specs.Prelude.{◌≡◌, ◌≢◌, Err, OnOk, OnErr};
ghost use Rattle.std.specs.Option.{option_copied};
ghost use Rattle.el_test.specs.Asker.{extended, ask_told, HasCause};
ghost use Rattle.el_test.specs.ScriptedAsker.{started, heard_of, or_no, due, reply_of, noted, after_ask, Replied};

use crate::ask_answers::{AskAnswer, AskAnswers};
use crate::ask_log::AskLog;
use crate::asker::{AskEvent, AskFault, Asker};
use crate::operators::Question;
use el_words::{NoMemory, Word};
use std::alloc::Global;
use std::marker::Model;

/// An asker in memory, which answers from a list and then `false`, and tells its log.
#[derive(Drop)]
pub struct ScriptedAsker {
    log: AskLog,
    answers: AskAnswers,
    taken: usize,
    faults: u64,
}

impl Model for ScriptedAsker {
    ghost use Rattle.std.specs.Prelude.{◌≤◌, drop, length};
    ghost use Rattle.std.specs.Coded.{codes};
    ghost use Rattle.el_test.specs.ScriptedAsker.{AskScript};
    ghost use Rattle.el_test.specs.contracts.asker.AskEvent as event;
    ghost use Rattle.el_test.specs.contracts.ask_answers.AskAnswer as answer;

    ghost Value = { AskScript };

    ghost coded = { Prim.hlevel (codes, event.the_row.coded, answer.the_row.coded) };

    ghost view = { λ s. record { log = s.log; answers = drop s.taken s.answers; faults = s.faults } };

    ghost invariant = { λ s. s.taken ≤ length s.answers };
}

impl ScriptedAsker {
    /// An asker with these answers, an empty log and no faults. Its log takes its memory from `alloc` later.
    pub fn new(alloc: Global, answers: AskAnswers) -> ScriptedAsker
        ensures { result ≡ started answers }
    {
        ScriptedAsker {
            log: AskLog::new(alloc),
            answers,
            taken: 0,
            faults: 0,
        }
    }

    /// The asks so far.
    pub fn log(&self) -> &AskLog
        ensures { result.now ≡ self.now.log }
    {
        &self.log
    }

    // The next answer; None is `No`.
    fn due(&self) -> Option<&AskAnswer>
        ensures { or_no (option_copied result) ≡ due self.now.answers }
    {
        self.answers.get(self.taken)
    }

    // Adds an ask, takes an answer, and counts a fault.
    fn note(&mut self, event: AskEvent, failed: bool) -> Result<(), NoMemory>
        ensures ok { OnOk result (self.new ≡ noted self.old event failed) }
        ensures err { OnErr result (self.new ≡ self.old) }
    {
        self.log.push(event)?;
        self.taken = self.taken.saturating_add(1).min(self.answers.len());
        self.faults = self.faults.saturating_add(u64::from(failed));
        Ok(())
    }
}

fn reply_of(answer: Option<&AskAnswer>) -> Result<bool, AskFault>
    ensures reply { result ≡ reply_of (or_no (option_copied answer.entry)) }
    ensures answered { result ≢ Err AskFault.NoMemory }
{
    match answer {
        Some(AskAnswer::Yes) => Ok(true),
        Some(AskAnswer::Fault) => Err(AskFault::Failed),
        Some(AskAnswer::No) | None => Ok(false),
    }
}

impl Asker for ScriptedAsker {
    ghost heard = { λ s. heard_of s };

    fn ask(&mut self, dir: &Word, path: &Word, question: Question) -> Result<bool, AskFault>
        ensures log { (heard_of self.new).log ≡ extended (heard_of self.old).log (ask_told dir.now path.now question result) }
        ensures cause { HasCause self.old.faults self.new.faults result AskFault.Failed }
        ensures no_memory { result ≡ Err AskFault.NoMemory → self.new ≡ self.old }
        ensures exact { result ≢ Err AskFault.NoMemory → Replied result (reply_of (due self.old.answers)) self.new (after_ask self.old dir.now path.now question result) }
    {
        let answer = reply_of(self.due());
        let event = AskEvent {
            dir: dir.copy()?,
            path: path.copy()?,
            question,
            answer,
        };
        self.note(event, answer.is_err())?;
        answer
    }
}
