//! execlineb [-q | -w | -W] [-P | -S n | -s n] file args.. · execlineb [-q | -w | -W] [-P | -S n | -s n] -c script args..
#![tactic(auto, using(el_world::proofs::Follows::stops, el_proc::proofs::Refusals::refusals), unfolding(crate::specs::Execlineb::execlineb_run, crate::specs::Execlineb::asked_run, crate::specs::Execlineb::prelude))]

ghost use Rattle.el_room.specs.Vocabulary.{HasNul, execlineb_options, Ran, RanWith, Tells, standard_fds, Follows, state_of, left_of, strict_name};
ghost use Rattle.std.specs.Prelude.{◌≡◌, ◌<◌, length, Ok, Err, IfOk, OnOk};
ghost use Rattle.std.specs.FinMap as map;
ghost use Rattle.el_app.specs.Options.{asked};
ghost use Rattle.el_app.specs.Execlineb.{strict_text, zero_of, words_from, prelude, asked_run, execlineb_run};
ghost use Rattle.el_app.specs.Calls.{execlineb_call, outcome_of};
ghost use Rattle.el_app.specs.Headline.{MakesItsMeaning, EndsAsItMeans};
ghost use Rattle.el_app.specs.Held.{KeepsWhatIsHeld};
ghost use Rattle.el_app.specs.Causes.{IsCaused};

use crate::asked::{Asked, Source};
use crate::file::read_script;
use crate::names::execlineb_name;
use crate::options::read_asked;
use crate::params::place;
use crate::process::first_process;
use crate::refusal::refused;
use crate::script::script_words;
use el_env::{Env, Positionals};
use el_front::{strict_name, subject_of_call};
use el_machine::run;
use el_options::{EXECLINEB, Strictness};
use el_proc::{Proc, Trouble};
use el_words::{NoMemory, Word, Words};
use el_world::{Finish, World};
use std::alloc::Global;

/// Runs execlineb with these words, of which the first is its name. Its options stand in any order, and
/// go on behind the script of `-c`, so that arguments which begin with `-` stand behind `--`.
///
/// Each of these is refused with status 100, tested in this order:
///
/// 1. a letter other than `q`, `w`, `W`, `P`, `S`, `s` and `c` (`unknown option -x`);
/// 2. an `-S`, an `-s` or a `-c` without a value (`option -c needs a value`);
/// 3. a value of the last `-S` or of the last `-s` that is no number up to 65,535, even where another of
///    `-P`, `-S` and `-s` counts (`bad number`);
/// 4. neither `-c` nor a word behind the options, which would name a file (`wrong usage`).
///
/// `-q`, `-w` and `-W` set EXECLINE_STRICT to `0`, `1` and `2`; the last of them counts, and without one
/// the variable stays. Of `-P`, `-S` and `-s` the last counts, and of several `-c`.
///
/// A file is opened from the directory `dir` and read with one unit of `budget` before each read; one
/// that can't be read ends with 111. A script with a fault of lexing or of braces is refused with status
/// 100 and the message `execlineb: line L: KIND`.
///
/// Without `-P`, `-S` and `-s` the words behind the script or the file are the positional parameters of a new
/// frame of variables, in which `0` is the file's word, or `execlineb` under `-c`; where a frame is set at
/// the greatest depth already, the process ends with 100 (`frame too deep`). With `-S` they are put in the
/// script's words, with at least as many numbers as it says, and the variables stay. With `-s` they are put
/// in so too, but that `@` leaves out as many of them. With `-P` they aren't used.
///
/// Then the script's words are run as `el_machine::run` says: each program of the chain and the last
/// command take a unit. The answer is that of the program that ends the process, or of the last command:
/// its status, 128 and the signal where it was killed, 127 where it isn't found, 126 where it can't be
/// started, and 111 where the start or the wait failed.
///
/// Where a status is answered, the handles are held that were held before, and of those that the world gave
/// just the ones which the process has at a number at its end. Where no call failed, 111 comes only of a
/// descriptor that isn't open, of a program's own code or of the last command's status.
///
/// The options and the grammar are execlineb's (https://skarnet.org/software/execline/execlineb.html).
pub fn execlineb<W: World>(
    alloc: Global,
    words: &Words,
    env: Env,
    dir: Word,
    world: &mut W,
    budget: u64,
) -> Finish
    requires { 0 < length words.now }
    ensures headline { MakesItsMeaning (W.seen world.old) (W.seen world.new) words.now env dir budget result }
    ensures complete { EndsAsItMeans (W.seen world.old) (W.seen world.new) words.now env dir budget result }
    ensures held { KeepsWhatIsHeld (W.seen world.old) (W.seen world.new) words.now env dir budget result }
    ensures cause { IsCaused (W.seen world.old) (W.seen world.new) words.now env dir budget result }
    ensures told { Tells (W.seen world.old) (W.seen world.new) (execlineb_call words.now env dir) budget (outcome_of result) }
    ensures run { RanWith (W.seen world.old) (W.seen world.new) (execlineb_call words.now env dir) budget (outcome_of result) }
    ensures spent { result ≡ Finish.Spent → Ran (W.seen world.old) (W.seen world.new) (execlineb_call words.now env dir) budget (outcome_of result) 0 }
{
    // The length tells that the words are fewer than 2^63, and so the numbers of positionals.
    prove!(words.len() > 0);
    let mut proc = first_process(alloc, env, dir, budget);
    run_execlineb(alloc, words, &mut proc, world)
}

/// execlineb with these words in a process that has none yet.
pub(crate) fn run_execlineb<W: World>(
    alloc: Global,
    words: &Words,
    proc: &mut Proc,
    world: &mut W,
) -> Finish
    requires named { 0 < length words.now }
    requires standard { proc.old.fds ≡ standard_fds }
    ensures { Follows {A = ⊥} {B = ⊥} (W.seen world.old) (W.seen world.new) (execlineb_run words.now (state_of proc.old)) proc.old.budget (Err result) (λ never. never) (state_of proc.new) proc.new.budget }
{
    match asked(alloc, words) {
        Ok(Ok(asked)) => run_asked(alloc, asked, proc, world),
        Ok(Err(trouble)) => {
            let subject = subject_of_call(words, trouble);
            refused(alloc, execlineb_name(), proc, trouble, subject, world)
        }
        Err(NoMemory) => Finish::NoMemory,
    }
}

// What the words ask for.
#[tactic(auto, unfolding(el_options::specs::Shapes::execlineb_options))]
fn asked(alloc: Global, words: &Words) -> Result<Result<Asked, Trouble>, NoMemory>
    requires { 0 < length words.now }
    ensures { IfOk result (λ read. read ≡ asked execlineb_options words.now) }
{
    read_asked(alloc, &[b"qwW", b"PSs"], &EXECLINEB, words)
}

// EXECLINE_STRICT is set before anything is run or refused.
fn run_asked<W: World>(alloc: Global, asked: Asked, proc: &mut Proc, world: &mut W) -> Finish
    requires { proc.old.fds ≡ standard_fds }
    ensures { Follows {A = ⊥} {B = ⊥} (W.seen world.old) (W.seen world.new) (asked_run (Ok asked) (state_of proc.old)) proc.old.budget (Err result) (λ never. never) (state_of proc.new) proc.new.budget }
{
    if let Some(strictness) = asked.strict {
        if let Err(NoMemory) = set_strictness(alloc, &mut proc.env, strictness) {
            return Finish::NoMemory;
        }
    }
    match prepare(alloc, asked, proc, world) {
        Ok(()) => run(alloc, proc, world),
        Err(finish) => finish,
    }
}

// Makes the script's words and the positional parameters ready.
fn prepare<W: World>(
    alloc: Global,
    asked: Asked,
    proc: &mut Proc,
    world: &mut W,
) -> Result<(), Finish>
    requires { proc.old.fds ≡ standard_fds }
    ensures run { Follows (W.seen world.old) (W.seen world.new) (prelude asked (state_of proc.old)) proc.old.budget result (λ _. left_of proc.new) (state_of proc.new) proc.new.budget }
    ensures fds { proc.new.fds ≡ proc.old.fds }
{
    let script = words_from(alloc, &asked.source, proc, world)?;
    let positionals = Positionals {
        zero: zero_of(alloc, asked.source)?,
        args: asked.args,
    };
    place(alloc, asked.placement, &positionals, script, proc, world)
}

// The file's word, or execlineb's name.
fn zero_of(alloc: Global, source: Source) -> Result<Word, NoMemory>
    ensures { IfOk result (λ zero. zero ≡ zero_of source) }
{
    match source {
        Source::Inline(_) => Word::of(alloc, execlineb_name()),
        Source::File(path) => Ok(path),
    }
}

// The words of the script that stands there.
fn words_from<W: World>(
    alloc: Global,
    source: &Source,
    proc: &mut Proc,
    world: &mut W,
) -> Result<Words, Finish>
    requires { proc.old.fds ≡ standard_fds }
    ensures run { Follows (W.seen world.old) (W.seen world.new) (words_from (state_of proc.old) source.now) proc.old.budget result (λ words. words) (state_of proc.old) proc.new.budget }
    ensures state { state_of proc.new ≡ state_of proc.old }
{
    match source {
        Source::Inline(script) => {
            script_words(alloc, source.subject(), script.as_bytes(), proc, world)
        }
        Source::File(path) => {
            let script = read_script(alloc, execlineb_name(), path, proc, world)?;
            script_words(alloc, source.subject(), script.as_bytes(), proc, world)
        }
    }
}

// Sets EXECLINE_STRICT.
#[tactic(auto, unfolding(el_front::specs::Fronts::strict_name))]
fn set_strictness(alloc: Global, env: &mut Env, strictness: Strictness) -> Result<(), NoMemory>
    ensures { OnOk result (env.new ≡ map.insert env.old strict_name (strict_text strictness)) }
{
    let text = Word::of(alloc, strict_text(strictness))?;
    env.insert(strict_name(), text)
}

// The value that says so.
fn strict_text(strictness: Strictness) -> &'static [u8]
    ensures text { result.now ≡ strict_text strictness }
    ensures no_nul { HasNul result.now → ⊥ }
{
    match strictness {
        Strictness::Lenient => b"0",
        Strictness::Warning => b"1",
        Strictness::Refusing => b"2",
    }
}
