//! A lister in memory.
ghost use Rattle.std.specs.Prelude.{◌≡◌, ◌≢◌, Err, IfOk};
ghost use Rattle.std.specs.Option.{option_copied};
ghost use Rattle.el_world.specs.World.{HasCause};
ghost use Rattle.el_glob.specs.Names.{IsListing};
ghost use Rattle.el_glob.specs.Listers.{extended, listing, is_fault};
ghost use Rattle.el_glob.specs.ScriptedLister.{seen_of, begun, due, named, reply, Replied};

use crate::list_answers::{ListAnswer, ListAnswers};
use crate::list_log::ListLog;
use crate::listed::{ListEvent, ListFault, Listed};
use crate::lister::Lister;
use crate::names::are_entry_names;
use el_words::{NoMemory, Word, Words};
use std::alloc::Global;
use std::marker::Model;

/// A lister in memory, which answers from a list, and behind it that there is no directory. It tells its
/// log.
#[derive(Drop)]
pub struct ScriptedLister {
    alloc: Global,
    log: ListLog,
    answers: ListAnswers,
    taken: usize,
    faults: u64,
}

impl Model for ScriptedLister {
    ghost use Rattle.std.specs.Prelude.{◌≤◌, drop, length};
    ghost use Rattle.std.specs.Coded.{codes};
    ghost use Rattle.el_glob.specs.ScriptedLister.{ListScript};
    ghost use Rattle.el_glob.specs.contracts.listed.ListEvent as event;
    ghost use Rattle.el_glob.specs.contracts.list_answers.ListAnswer as answer;

    ghost Value = { ListScript };

    ghost coded = { Prim.hlevel (codes, event.the_row.coded, answer.the_row.coded) };

    ghost view = { λ s. record { log = s.log; answers = drop s.taken s.answers; faults = s.faults } };

    ghost invariant = { λ s. s.taken ≤ length s.answers };
}

impl ScriptedLister {
    /// A lister with no listings and no faults. It takes no memory.
    pub fn new(alloc: Global, answers: ListAnswers) -> ScriptedLister
        ensures { result ≡ begun answers }
    {
        ScriptedLister {
            alloc,
            log: ListLog::new(alloc),
            answers,
            taken: 0,
            faults: 0,
        }
    }

    /// The listings so far.
    pub fn log(&self) -> &ListLog
        ensures { result.now ≡ self.now.log }
    {
        &self.log
    }

    // The answer that the next listing takes.
    fn due(&self) -> Option<&ListAnswer>
        ensures { option_copied result ≡ due self.now.answers }
    {
        self.answers.get(self.taken)
    }
}

// What a listing answers. Names that no directory has count as no directory.
fn reply(alloc: Global, answer: Option<&ListAnswer>) -> Result<Result<Listed, ListFault>, NoMemory>
    ensures { IfOk result (λ replied. replied ≡ reply (option_copied answer.entry)) }
{
    match answer {
        Some(ListAnswer::Names(names)) => named(alloc, names),
        Some(ListAnswer::Fault) => Ok(Err(ListFault::Failed)),
        _ => Ok(Ok(Listed::NoDirectory)),
    }
}

// These names, if a directory may have them.
fn named(alloc: Global, names: &Words) -> Result<Result<Listed, ListFault>, NoMemory>
    ensures { IfOk result (λ replied. replied ≡ named names.now) }
{
    if !are_entry_names(alloc, names)? {
        return Ok(Ok(Listed::NoDirectory));
    }
    Ok(Ok(Listed::Names(names.copy()?)))
}

// Whether a listing failed, which is counted.
fn is_fault(answer: &Result<Listed, ListFault>) -> bool
    ensures { result ≡ is_fault answer.now }
{
    answer.is_err()
}

impl Lister for ScriptedLister {
    ghost seen = { λ s. seen_of s };

    fn list(&mut self, dir: &Word, path: &Word) -> Result<Listed, ListFault>
        ensures log { (seen_of self.new).log ≡ extended (seen_of self.old).log (listing dir.now path.now result) }
        ensures cause { HasCause self.old.faults self.new.faults result ListFault.Failed }
        ensures names { IfOk result IsListing }
        ensures no_memory { result ≡ Err ListFault.NoMemory → self.new ≡ self.old }
        ensures exact { result ≢ Err ListFault.NoMemory → Replied result self.old self.new dir.now path.now }
    {
        let answer = reply(self.alloc, self.due())?;
        let event = ListEvent {
            dir: dir.copy()?,
            path: path.copy()?,
            answer: reply(self.alloc, self.due())?,
        };
        self.log.push(event)?;
        self.taken = self.taken.saturating_add(1).min(self.answers.len());
        self.faults = self.faults.saturating_add(u64::from(is_fault(&answer)));
        answer
    }
}
