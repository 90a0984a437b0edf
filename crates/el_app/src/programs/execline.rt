//! execline prog.. · execline tool args.. · prog..
#![tactic(auto, using(el_world::proofs::Follows::stops, el_proc::proofs::Refusals::refusals, crate::proofs::Standard::standard, crate::proofs::NoNuls::base_without_nul), unfolding(crate::specs::Execline::execline_run, crate::specs::Execline::after_execline, crate::specs::Execline::named_run, crate::specs::Execline::tool_run))]

ghost use Rattle.el_room.specs.Vocabulary.{HasNul, Ran, RanWith, Tells, standard_fds, Follows, state_of};
ghost use Rattle.std.specs.Prelude.{◌≡◌, ℕ, ◌<◌, List, ◌∷◌, length, Some, Err, IfOk};
ghost use Rattle.el_app.specs.Execline.{after_execline, named_run, tool_run, execline_run, vector_words};
ghost use Rattle.el_machine.specs.Flat.{flat_run};
ghost use Rattle.el_app.specs.Calls.{execline_call, outcome_of};
ghost use Rattle.el_app.specs.Headline.{MakesItsMeaning, EndsAsItMeans, execlineb_words};
ghost use Rattle.el_app.specs.Held.{KeepsWhatIsHeld, VectorKeepsWhatIsHeld};
ghost use Rattle.el_app.specs.Causes.{IsCaused, IsVectorCaused};

use crate::names::{Tool, base_name, execline_name, tool_named};
use crate::process::first_process;
use crate::programs::elcheck::run_elcheck;
use crate::programs::elfmt::run_elfmt;
use crate::programs::execlineb::run_execlineb;
use el_env::Env;
use el_machine::run;
use el_proc::{Proc, Trouble, refused_as};
use el_words::{NoMemory, Word, Words, WordsIter, name_of};
use el_world::{Finish, Subject, World};
use std::alloc::Global;

/// The top call: what `words` name is run with this environment, in this directory, over `world`, with
/// at most `budget` units. It goes by the base name of the first word, the part after its last slash:
///
/// 1. Without words the answer is Status(0).
/// 2. `execline` is dropped. Behind it `execlineb`, `elcheck` or `elfmt`, compared whole, is that tool;
///    other words are run as a vector.
/// 3. `execlineb`, `elcheck`, `elfmt` or a chain program's name is done, with the base name as the first
///    word.
/// 4. Any other is refused with `execline: unknown program` and status 100.
pub fn execline<W: World>(
    alloc: Global,
    words: &Words,
    env: Env,
    dir: Word,
    world: &mut W,
    budget: u64,
) -> Finish
    ensures headline { (call : List (List ℕ)) → execlineb_words words.now ≡ Some call → MakesItsMeaning (W.seen world.old) (W.seen world.new) call env dir budget result }
    ensures complete { (call : List (List ℕ)) → execlineb_words words.now ≡ Some call → EndsAsItMeans (W.seen world.old) (W.seen world.new) call env dir budget result }
    ensures held { (call : List (List ℕ)) → execlineb_words words.now ≡ Some call → KeepsWhatIsHeld (W.seen world.old) (W.seen world.new) call env dir budget result }
    ensures cause { (call : List (List ℕ)) → execlineb_words words.now ≡ Some call → IsCaused (W.seen world.old) (W.seen world.new) call env dir budget result }
    ensures vector_held { (vector : List (List ℕ)) → vector_words words.now ≡ Some vector → VectorKeepsWhatIsHeld (W.seen world.old) (W.seen world.new) vector env dir budget result }
    ensures vector_cause { (vector : List (List ℕ)) → vector_words words.now ≡ Some vector → IsVectorCaused (W.seen world.old) (W.seen world.new) vector env dir budget result }
    ensures told { Tells (W.seen world.old) (W.seen world.new) (execline_call words.now env dir) budget (outcome_of result) }
    ensures run { RanWith (W.seen world.old) (W.seen world.new) (execline_call words.now env dir) budget (outcome_of result) }
    ensures spent { result ≡ Finish.Spent → Ran (W.seen world.old) (W.seen world.new) (execline_call words.now env dir) budget (outcome_of result) 0 }
{
    let mut proc = first_process(alloc, env, dir, budget);
    run_execline(alloc, words.iter(), &mut proc, world)
}

fn run_execline<W: World>(
    alloc: Global,
    mut words: WordsIter<'_>,
    proc: &mut Proc,
    world: &mut W,
) -> Finish
    requires { proc.old.fds ≡ standard_fds }
    ensures { Follows {A = ⊥} {B = ⊥} (W.seen world.old) (W.seen world.new) (execline_run words.entry (state_of proc.old)) proc.old.budget (Err result) (λ never. never) (state_of proc.new) proc.new.budget }
{
    let Some(word) = words.next() else {
        return Finish::Status(0);
    };
    let name = base_name(word);
    if name == execline_name() {
        run_after_execline(alloc, words, proc, world)
    } else {
        run_named(alloc, name, words, proc, world)
    }
}

// The words behind `execline`.
fn run_after_execline<W: World>(
    alloc: Global,
    mut words: WordsIter<'_>,
    proc: &mut Proc,
    world: &mut W,
) -> Finish
    requires { proc.old.fds ≡ standard_fds }
    ensures { Follows {A = ⊥} {B = ⊥} (W.seen world.old) (W.seen world.new) (after_execline words.entry (state_of proc.old)) proc.old.budget (Err result) (λ never. never) (state_of proc.new) proc.new.budget }
{
    let Some(word) = words.next() else {
        return run_vector(alloc, Words::new(alloc), proc, world);
    };
    let tool = tool_named(word);
    let Ok(vector) = with_first(alloc, word, words) else {
        return Finish::NoMemory;
    };
    match tool {
        Some(tool) => run_tool(alloc, tool, &vector, proc, world),
        None => run_vector(alloc, vector, proc, world),
    }
}

// A name other than `execline`, with the words behind it.
fn run_named<W: World>(
    alloc: Global,
    name: &[u8],
    words: WordsIter<'_>,
    proc: &mut Proc,
    world: &mut W,
) -> Finish
    requires standard { proc.old.fds ≡ standard_fds }
    requires no_nul { HasNul name.now → ⊥ }
    ensures { Follows {A = ⊥} {B = ⊥} (W.seen world.old) (W.seen world.new) (named_run name.now words.entry (state_of proc.old)) proc.old.budget (Err result) (λ never. never) (state_of proc.new) proc.new.budget }
{
    let Ok(vector) = with_first(alloc, name, words) else {
        return Finish::NoMemory;
    };
    if let Some(tool) = tool_named(name) {
        return run_tool(alloc, tool, &vector, proc, world);
    }
    let Some(_) = name_of(name) else {
        let subject = Subject::of(b"program", name).with_note(b"execline PROGRAM.. runs any");
        return refused_as(
            alloc,
            &proc.fds,
            execline_name(),
            Trouble::UnknownProgram,
            Some(subject),
            world,
        );
    };
    run_vector(alloc, vector, proc, world)
}

// A tool with these words, of which the first is its name.
fn run_tool<W: World>(
    alloc: Global,
    tool: Tool,
    words: &Words,
    proc: &mut Proc,
    world: &mut W,
) -> Finish
    requires named { 0 < length words.now }
    requires standard { proc.old.fds ≡ standard_fds }
    ensures { Follows {A = ⊥} {B = ⊥} (W.seen world.old) (W.seen world.new) (tool_run tool words.now (state_of proc.old)) proc.old.budget (Err result) (λ never. never) (state_of proc.new) proc.new.budget }
{
    match tool {
        Tool::Execlineb => run_execlineb(alloc, words, proc, world),
        Tool::Elcheck => run_elcheck(alloc, words, proc, world),
        Tool::Elfmt => run_elfmt(alloc, words, proc, world),
    }
}

// These words in a process that has none yet.
fn run_vector<W: World>(alloc: Global, words: Words, proc: &mut Proc, world: &mut W) -> Finish
    requires { proc.old.fds ≡ standard_fds }
    ensures { Follows {A = ⊥} {B = ⊥} (W.seen world.old) (W.seen world.new) (flat_run words (state_of proc.old)) proc.old.budget (Err result) (λ never. never) (state_of proc.new) proc.new.budget }
{
    proc.words = words;
    run(alloc, proc, world)
}

// This word, and behind it the words that are left.
fn with_first(alloc: Global, first: &[u8], words: WordsIter<'_>) -> Result<Words, NoMemory>
    requires { HasNul first.now → ⊥ }
    ensures { IfOk result (λ all. all ≡ first.now ∷ words.entry) }
{
    let mut all = Words::new(alloc);
    all.push(first)?;
    for word in words {
        all.push(word)?;
    }
    Ok(all)
}
