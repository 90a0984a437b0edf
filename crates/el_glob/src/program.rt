//! elglob [-0] var pattern prog..
#![tactic(auto, using(el_world::proofs::Follows::stops, el_proc::proofs::Refusals::refusals), unfolding(crate::specs::Elglob::elglob_run, crate::specs::Elglob::asked_run, crate::specs::Elglob::run_on, crate::specs::Elglob::put_and_run))]

ghost use Rattle.std.specs.Prelude.{◌≡◌, ◌<◌, [], ◌∷◌, length, Ok, Err, IfOk};
ghost use Rattle.el_subst.specs.Values.{words_value};
ghost use Rattle.el_world.specs.States.{standard_fds};
ghost use Rattle.el_world.specs.Follows.{Follows};
ghost use Rattle.el_proc.specs.Processes.{state_of};
ghost use Rattle.el_glob.specs.Elglob.{value_of, put_and_run, asked_run, elglob_run, lists_for, elglob_lists, first_state};
ghost use Rattle.el_glob.specs.Calls.{RunsOn, Globbed, Tells};

use crate::asked::{Asked, read_asked};
use crate::globbing::glob;
use crate::listed::ListFault;
use crate::lister::Lister;
use crate::refusal::{Refusal, refuse};
use el_env::Env;
use el_machine::run;
use el_proc::{Fds, Kids, Proc, Trouble};
use el_subst::{Subst, apply_to};
use el_words::{NoMemory, Word, Words};
use el_world::{Finish, World};
use std::alloc::Global;

/// Runs elglob with these words, of which the first is its name: the rest of the words is run, with the paths
/// that a pattern matches in place of a variable.
///
/// One unit of `budget` is taken first. Each of these is then refused with status 100, tested in this order:
///
/// 1. a letter other than `0` (`unknown option -x`);
/// 2. fewer than two words behind the options (`argument missing`);
/// 3. a variable that no reference can have: empty, or with `$` or `}` (`bad variable name`);
/// 4. a text that is no pattern (`bad pattern`).
///
/// The pattern is matched from the directory `dir`, by listings of `lister`. A listing that fails ends with 111 (`system call failed`). The matches are all paths that the pattern matches by these
/// listings, each once, in the order of their bytes. Where there are none, the pattern's own word stands for
/// them, and under `-0` no word.
///
/// Then the rest is run as `el_machine::run` says, and the answer is that of the run.
///
/// What a pattern matches, and the names of these options, are this project's own, after execline's elglob
/// (https://skarnet.org/software/execline/elglob.html).
pub fn elglob<L: Lister, W: World>(
    alloc: Global,
    words: &Words,
    env: Env,
    dir: Word,
    lister: &mut L,
    world: &mut W,
    budget: u64,
) -> Finish
    requires { 0 < length words.now }
    ensures globbed { Globbed (L.seen lister.old) (L.seen lister.new) (W.seen world.old) (W.seen world.new) words.now env dir budget result }
    ensures told { Tells (L.seen lister.old) (L.seen lister.new) (W.seen world.old) (W.seen world.new) words.now env dir budget result }
{
    let mut proc = first_process(alloc, env, dir, budget);
    run_elglob(alloc, words, &mut proc, lister, world)
}

// A process at its start: it has no words yet.
fn first_process(alloc: Global, env: Env, dir: Word, budget: u64) -> Proc
    ensures state { state_of result ≡ first_state env dir }
    ensures budget { result.budget ≡ budget }
{
    Proc {
        words: Words::new(alloc),
        env,
        fds: Fds::standard(),
        dir,
        kids: Kids::new(alloc),
        budget,
    }
}

// elglob with these words in a process that has none yet.
fn run_elglob<L: Lister, W: World>(
    alloc: Global,
    words: &Words,
    proc: &mut Proc,
    lister: &mut L,
    world: &mut W,
) -> Finish
    requires named { 0 < length words.now }
    requires standard { proc.old.fds ≡ standard_fds }
    ensures { RunsOn (L.seen lister.old) (L.seen lister.new) (W.seen world.old) (W.seen world.new) (elglob_lists proc.old.budget proc.old.dir words.now) (λ answers. elglob_run words.now answers (state_of proc.old)) proc.old.budget result (state_of proc.new) proc.new.budget }
{
    if proc.budget == 0 {
        return Finish::Spent;
    }
    proc.budget -= 1;
    match read_asked(alloc, words) {
        Ok(read) => run_read(alloc, read, proc, lister, world),
        Err(NoMemory) => Finish::NoMemory,
    }
}

// Does what is asked for, or complains of the words.
fn run_read<L: Lister, W: World>(
    alloc: Global,
    read: Result<Asked, Refusal>,
    proc: &mut Proc,
    lister: &mut L,
    world: &mut W,
) -> Finish
    requires { proc.old.fds ≡ standard_fds }
    ensures { RunsOn (L.seen lister.old) (L.seen lister.new) (W.seen world.old) (W.seen world.new) (lists_for proc.old.dir read) (λ answers. asked_run read answers (state_of proc.old)) proc.old.budget result (state_of proc.new) proc.new.budget }
{
    match read {
        Ok(asked) => run_asked(alloc, asked, proc, lister, world),
        Err(refusal) => refuse(alloc, proc, refusal, world),
    }
}

// Finds the matches, and runs the rest with them.
fn run_asked<L: Lister, W: World>(
    alloc: Global,
    asked: Asked,
    proc: &mut Proc,
    lister: &mut L,
    world: &mut W,
) -> Finish
    requires { proc.old.fds ≡ standard_fds }
    ensures { RunsOn (L.seen lister.old) (L.seen lister.new) (W.seen world.old) (W.seen world.new) (lists_for proc.old.dir (Ok asked)) (λ answers. asked_run (Ok asked) answers (state_of proc.old)) proc.old.budget result (state_of proc.new) proc.new.budget }
{
    match glob(alloc, &asked.pattern, &proc.dir, lister) {
        Ok(matches) => put_and_run(alloc, asked, matches, proc, world),
        Err(ListFault::Failed) => refuse(alloc, proc, Refusal::Common(Trouble::Failed), world),
        Err(ListFault::NoMemory) => Finish::NoMemory,
    }
}

// Runs the rest with the matches in place of the variable.
fn put_and_run<W: World>(
    alloc: Global,
    asked: Asked,
    matches: Words,
    proc: &mut Proc,
    world: &mut W,
) -> Finish
    requires { proc.old.fds ≡ standard_fds }
    ensures { Follows {A = ⊥} {B = ⊥} (W.seen world.old) (W.seen world.new) (put_and_run asked matches (state_of proc.old)) proc.old.budget (Err result) (λ never. never) (state_of proc.new) proc.new.budget }
{
    match with_matches(alloc, asked, matches) {
        Ok(words) => {
            proc.words = words;
            run(alloc, proc, world)
        }
        Err(NoMemory) => Finish::NoMemory,
    }
}

// The rest with the matches in it.
fn with_matches(alloc: Global, asked: Asked, matches: Words) -> Result<Words, NoMemory>
    ensures { IfOk result (λ words. words ≡ words_value ((asked.key, value_of asked.none_for_none asked.text matches) ∷ []) asked.rest) }
{
    let value = value_of(alloc, asked.none_for_none, &asked.text, matches)?;
    let mut subst = Subst::new(alloc);
    subst.add(asked.key, value).map_err(|_| NoMemory)?;
    apply_to(alloc, &subst, asked.rest)
}

// The words for the variable.
fn value_of(
    alloc: Global,
    none_for_none: bool,
    text: &Word,
    matches: Words,
) -> Result<Words, NoMemory>
    ensures { IfOk result (λ value. value ≡ value_of none_for_none text.now matches) }
{
    if !matches.is_empty() || none_for_none {
        return Ok(matches);
    }
    let mut own = Words::new(alloc);
    own.push(text.as_bytes())?;
    Ok(own)
}
