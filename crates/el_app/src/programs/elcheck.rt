//! elcheck [-P | -S n | -s n] file · elcheck [-P | -S n | -s n] -c script · elcheck --sample n
#![tactic(auto, using(el_world::proofs::Follows::stops, el_proc::proofs::Refusals::refusals), unfolding(crate::specs::Elcheck::elcheck_run, crate::specs::Elcheck::checks_asked, crate::specs::Elcheck::verdict))]

ghost use Rattle.el_room.specs.Vocabulary.{elcheck_options, Ran, RanWith, Tells, standard_fds, Follows, state_of};
ghost use Rattle.std.specs.Prelude.{◌≡◌, ◌<◌, length, Ok, Err, IfOk};
ghost use Rattle.el_check.specs.declared.kind.CheckKind.TheVariants.{NoMemory as no_memory};
ghost use Rattle.el_check.specs.Checks.{checked};
ghost use Rattle.el_app.specs.Options.{asked};
ghost use Rattle.el_app.specs.Elcheck.{fault_line, verdict, checks_asked, elcheck_run};
ghost use Rattle.el_app.specs.Calls.{elcheck_call, outcome_of};
ghost use Rattle.el_app.specs.Completeness.{AcceptsTheAccepted, TellsTheSample};

use crate::asked::Asked;
use crate::file::script_from;
use crate::names::elcheck_name;
use crate::options::read_asked;
use crate::output::put_out;
use crate::process::first_process;
use crate::programs::elfmt::trouble_of;
use crate::programs::sample::{asks_for_sample, run_sample};
use crate::refusal::refused;
use crate::script::fault_in;
use el_check::{CheckFault, CheckKind, Params, first_fault};
use el_env::Env;
use el_front::subject_of_call;
use el_options::ELCHECK;
use el_proc::{Proc, Trouble};
use el_words::{Bytes, NoMemory, Word, Words};
use el_world::{Finish, Subject, World};
use std::alloc::Global;

/// The status of a script that isn't accepted.
pub(crate) const REFUSED: u8 = 100;

/// Runs elcheck with these words, of which the first is its name: whether the script is accepted, as
/// `el_check::first_fault` says it.
///
/// Its options are read and its script is found as execlineb's are, with the letters `P`, `S`, `s` and `c`
/// alone, and refused with status 100 in the same order. Of `-P`, `-S` and `-s` the last counts: they say how
/// execlineb will be called, and `-s` is checked as `-S`. Words behind the script or the file aren't used, and
/// no frame of variables is pushed. A file is read with one unit of `budget` before each read; one that can't
/// be read ends with 111.
///
/// A script that is accepted ends with 0, and nothing is written. Of any other the first fault is written to
/// number 1, a line `line L: KIND`, and the status is 100; where it can't be written, the status is 111.
///
/// With `--sample` as the first word behind the name, and behind it a number from 1 to 4,000, the script is
/// `sample` of so many lines, checked as under `-P`. It is run in memory with the greatest budget, without
/// variables and from `/`, where all goes well. A line `units U starts S waits W pipes P closes C status T` is
/// written to number 1: the units that were taken, how many processes were started and waited for, pipes made
/// and handles closed, and the status of the run. Then the status is 0, or 111 where the line can't be written.
/// With no word behind `--sample`, or any other, it is 100. Further words aren't used. At any other place
/// `--sample` is the unknown letter `-`.
///
/// elcheck is this project's own.
pub fn elcheck<W: World>(
    alloc: Global,
    words: &Words,
    env: Env,
    dir: Word,
    world: &mut W,
    budget: u64,
) -> Finish
    requires { 0 < length words.now }
    ensures complete { AcceptsTheAccepted (W.seen world.old) (W.seen world.new) words.now env dir budget result }
    ensures sample { TellsTheSample (W.seen world.old) (W.seen world.new) words.now result }
    ensures told { Tells (W.seen world.old) (W.seen world.new) (elcheck_call words.now env dir) budget (outcome_of result) }
    ensures run { RanWith (W.seen world.old) (W.seen world.new) (elcheck_call words.now env dir) budget (outcome_of result) }
    ensures spent { result ≡ Finish.Spent → Ran (W.seen world.old) (W.seen world.new) (elcheck_call words.now env dir) budget (outcome_of result) 0 }
{
    let mut proc = first_process(alloc, env, dir, budget);
    run_elcheck(alloc, words, &mut proc, world)
}

/// elcheck with these words in a process that has none yet.
pub(crate) fn run_elcheck<W: World>(
    alloc: Global,
    words: &Words,
    proc: &mut Proc,
    world: &mut W,
) -> Finish
    requires named { 0 < length words.now }
    requires standard { proc.old.fds ≡ standard_fds }
    ensures { Follows {A = ⊥} {B = ⊥} (W.seen world.old) (W.seen world.new) (elcheck_run words.now (state_of proc.old)) proc.old.budget (Err result) (λ never. never) (state_of proc.new) proc.new.budget }
{
    if asks_for_sample(words) {
        return run_sample(alloc, words, proc, world);
    }
    match asked(alloc, words) {
        Ok(Ok(asked)) => check_asked(alloc, asked, proc, world),
        Ok(Err(trouble)) => {
            let subject = subject_of_call(words, trouble);
            refused(alloc, elcheck_name(), proc, trouble, subject, world)
        }
        Err(NoMemory) => Finish::NoMemory,
    }
}

// What the words ask for.
#[tactic(auto, unfolding(el_options::specs::Shapes::elcheck_options))]
fn asked(alloc: Global, words: &Words) -> Result<Result<Asked, Trouble>, NoMemory>
    requires { 0 < length words.now }
    ensures { IfOk result (λ read. read ≡ asked elcheck_options words.now) }
{
    read_asked(alloc, &[b"PSs"], &ELCHECK, words)
}

fn check_asked<W: World>(alloc: Global, asked: Asked, proc: &mut Proc, world: &mut W) -> Finish
    requires { proc.old.fds ≡ standard_fds }
    ensures { Follows {A = ⊥} {B = ⊥} (W.seen world.old) (W.seen world.new) (checks_asked (Ok asked) (state_of proc.old)) proc.old.budget (Err result) (λ never. never) (state_of proc.new) proc.new.budget }
{
    match script_from(alloc, elcheck_name(), &asked.source, proc, world) {
        Ok(script) => tell_verdict(
            alloc,
            asked.placement.params(),
            asked.source.subject(),
            script.as_bytes(),
            proc,
            world,
        ),
        Err(finish) => finish,
    }
}

// Writes the first fault, where there is one.
fn tell_verdict<W: World>(
    alloc: Global,
    params: Params,
    subject: Subject<'_>,
    script: &[u8],
    proc: &Proc,
    world: &mut W,
) -> Finish
    ensures { Follows {A = ⊥} {B = ⊥} (W.seen world.old) (W.seen world.new) (verdict (state_of proc.now) (checked params script.now)) proc.now.budget (Err result) (λ never. never) (state_of proc.now) proc.now.budget }
{
    let Err(fault) = first_fault(alloc, params, script) else {
        return Finish::Status(0);
    };
    match fault_line(alloc, fault) {
        Ok(line) => {
            explain(subject, fault, world);
            put_out(line.as_bytes(), REFUSED, proc, world)
        }
        Err(NoMemory) => Finish::NoMemory,
    }
}

// Says which script the line is about that is written next, and what is wrong there.
fn explain<W: World>(subject: Subject<'_>, fault: CheckFault, world: &mut W)
    ensures { W.seen world.new ≡ W.seen world.old }
{
    if let Ok(trouble) = trouble_of(fault) {
        world.explain(fault_in(subject, trouble).of_output());
    }
}

/// The line of a fault, unless it is want of memory.
pub(crate) fn fault_line(alloc: Global, fault: CheckFault) -> Result<Bytes, NoMemory>
    ensures line { IfOk result (λ line. line ≡ fault_line (fault.kind, fault.line)) }
    ensures known { IfOk result (λ line. fault.kind ≡ no_memory → ⊥) }
{
    if fault.kind == CheckKind::NoMemory {
        return Err(NoMemory);
    }
    let line = format!(in alloc; "{fault}\n")?;
    Bytes::from_slice(alloc, line.as_bytes())
}
