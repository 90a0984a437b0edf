//! elcheck --sample n
#![tactic(auto, using(el_world::proofs::Follows::stops, el_proc::proofs::Refusals::refusals), unfolding(crate::specs::Elcheck::sampled, crate::specs::Elcheck::run_told, crate::specs::Elcheck::line_told, crate::specs::Elcheck::script_run))]

ghost use Rattle.el_room.specs.Vocabulary.{standard_fds, Follows, events_of, state_of};
ghost use Rattle.std.specs.Prelude.{◌≡◌, ◌≤◌, [], Ok, Err, Some, drop, IfOk};
ghost use Rattle.el_world.specs.Scripted.{seen_of};
ghost use Rattle.el_app.specs.Plain.{IsPlayedLine};
ghost use Rattle.el_app.specs.Tallies.{line_of};
ghost use Rattle.el_app.specs.Elcheck.{sample_word, asks_for_sample, lines_asked, script_run, run_played, line_told, sampled};

use crate::names::elcheck_name;
use crate::output::put_out;
use crate::process::first_process;
use crate::programs::elcheck::{REFUSED, fault_line};
use crate::refusal::refused;
use crate::samples::{MAX_SAMPLE, sample};
use crate::script::script_words;
use crate::tallies::{tally_line, tally_of};
use el_check::{Params, check};
use el_env::Env;
use el_machine::run;
use el_proc::{Proc, Trouble};
use el_words::{Bytes, NoMemory, Word, Words, parse_u64};
use el_world::{Answers, Finish, Log, Scripted, Subject, World};
use std::alloc::Global;

/// Whether `--sample` stands first behind the name.
pub(crate) fn asks_for_sample(words: &Words) -> bool
    ensures { result ≡ asks_for_sample words.now }
{
    match words.get(1) {
        Some(word) => word == sample_word(),
        None => false,
    }
}

#[tactic(auto, unfolding(crate::specs::Elcheck::sample_word))]
fn sample_word() -> &'static [u8]
    ensures { result.now ≡ sample_word }
{
    b"--sample"
}

/// Checks and runs the sample that the words behind `--sample` ask for, and writes the line of its run.
pub(crate) fn run_sample<W: World>(
    alloc: Global,
    words: &Words,
    proc: &Proc,
    world: &mut W,
) -> Finish
    requires { proc.now.fds ≡ standard_fds }
    ensures { Follows {A = ⊥} {B = ⊥} (W.seen world.old) (W.seen world.new) (sampled (lines_asked (drop 2 words.now)) (state_of proc.now)) proc.now.budget (Err result) (λ never. never) (state_of proc.now) proc.now.budget }
{
    match lines_asked(words) {
        Ok(lines) => tell_sample(alloc, lines, proc, world),
        Err(trouble) => {
            let subject = lines_subject(words, trouble);
            refused(alloc, elcheck_name(), proc, trouble, subject, world)
        }
    }
}

// What is wrong with the number of lines; without one the usage is what there is to say.
fn lines_subject(words: &Words, trouble: Trouble) -> Option<Subject<'_>> {
    match trouble {
        Trouble::BadNumber => {
            let subject = Subject::of(b"number of lines", words.get(2)?);
            Some(subject.with_note(b"a number from 1 to 4000 is wanted"))
        }
        _ => None,
    }
}

// How many lines are asked for.
fn lines_asked(words: &Words) -> Result<u64, Trouble>
    ensures asked { result ≡ lines_asked (drop 2 words.now) }
    ensures some { IfOk result (λ lines. 1 ≤ lines) }
    ensures few { IfOk result (λ lines. lines ≤ MAX_SAMPLE) }
{
    let Some(word) = words.get(2) else {
        return Err(Trouble::Missing);
    };
    match parse_u64(word) {
        Some(lines) if 1 <= lines && lines <= MAX_SAMPLE => Ok(lines),
        _ => Err(Trouble::BadNumber),
    }
}

// Writes the line of its run, or its first fault.
fn tell_sample<W: World>(alloc: Global, lines: u64, proc: &Proc, world: &mut W) -> Finish
    requires some { 1 ≤ lines }
    requires few { lines ≤ MAX_SAMPLE }
    ensures { Follows {A = ⊥} {B = ⊥} (W.seen world.old) (W.seen world.new) (sampled (Ok lines) (state_of proc.now)) proc.now.budget (Err result) (λ never. never) (state_of proc.now) proc.now.budget }
{
    let Ok(script) = sample(alloc, lines) else {
        return Finish::NoMemory;
    };
    let Err(fault) = check(alloc, Params::Leave, script.as_bytes()) else {
        return tell_run(alloc, script.as_bytes(), proc, world);
    };
    match fault_line(alloc, fault) {
        Ok(line) => put_out(line.as_bytes(), REFUSED, proc, world),
        Err(NoMemory) => Finish::NoMemory,
    }
}

fn tell_run<W: World>(alloc: Global, script: &[u8], proc: &Proc, world: &mut W) -> Finish
    ensures { Follows {A = ⊥} {B = ⊥} (W.seen world.old) (W.seen world.new) (line_told (state_of proc.now) (line_of (run_played script.now))) proc.now.budget (Err result) (λ never. never) (state_of proc.now) proc.now.budget }
{
    match run_line(alloc, script) {
        Ok(line) => put_out(line.as_bytes(), 0, proc, world),
        Err(NoMemory) => Finish::NoMemory,
    }
}

// Runs a script in memory. Where the world there doesn't answer plainly, as when it has no more numbers for
// processes, or a unit isn't left, that is want of memory.
fn run_line(alloc: Global, script: &[u8]) -> Result<Bytes, NoMemory>
    ensures { IfOk result (λ line. Some line ≡ line_of (run_played script.now)) }
{
    let mut world = Scripted::new(alloc, Answers::new(alloc))?;
    line_in(alloc, script, &mut world)
}

// The same in a world in which nothing was called yet.
fn line_in(alloc: Global, script: &[u8], world: &mut Scripted) -> Result<Bytes, NoMemory>
    requires { (seen_of world.old).log ≡ Some [] }
    ensures { IfOk result (λ line. Some line ≡ line_of (run_played script.now)) }
{
    let mut proc = first_process(alloc, Env::new(alloc), Word::of(alloc, b"/")?, u64::MAX);
    let Finish::Status(code) = run_script(alloc, script, &mut proc, world) else {
        return Err(NoMemory);
    };
    line_behind(alloc, code, proc.budget, world.log())
}

// The line of a run that ended with this status, and left so many units and this log.
fn line_behind(alloc: Global, code: u8, left: u64, log: &Log) -> Result<Bytes, NoMemory>
    ensures { IfOk result (IsPlayedLine code left (events_of log.now)) }
{
    if left == 0 {
        return Err(NoMemory);
    }
    match tally_of(log) {
        Some(tally) => tally_line(alloc, u64::MAX - left, tally, code),
        None => Err(NoMemory),
    }
}

// Spells a script, and runs its words.
#[tactic(auto, using(crate::proofs::Standard::standard))]
fn run_script<W: World>(alloc: Global, script: &[u8], proc: &mut Proc, world: &mut W) -> Finish
    requires { proc.old.fds ≡ standard_fds }
    ensures { Follows {A = ⊥} {B = ⊥} (W.seen world.old) (W.seen world.new) (script_run script.now (state_of proc.old)) proc.old.budget (Err result) (λ never. never) (state_of proc.new) proc.new.budget }
{
    match script_words(alloc, Subject::saying(b"the sample"), script, proc, world) {
        Ok(words) => {
            proc.words = words;
            run(alloc, proc, world)
        }
        Err(finish) => finish,
    }
}
