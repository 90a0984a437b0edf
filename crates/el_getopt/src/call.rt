//! elgetopt optstring prog..
#![tactic(auto, using(crate::proofs::Standard::standard))]

ghost use Rattle.el_room.specs.Vocabulary.{HasNul, Ran, RanWith, Tells, standard_fds, state_of};
ghost use Rattle.std.specs.Prelude.{◌≡◌, ◌<◌, length};
ghost use Rattle.el_getopt.specs.Parsing.{elgetopt_name, parsed};
ghost use Rattle.el_getopt.specs.Calls.{first_state, elgetopt_call, outcome_of, ParsesAndRuns, IsCaused};
ghost use Rattle.el_getopt.specs.Parses.{DoesFrom};

use crate::fault::ParseFault;
use crate::parsing::parse;
use el_env::Env;
use el_machine::run;
use el_proc::{Fds, Kids, Proc, refused_as, take_unit};
use el_words::{Word, Words};
use el_world::{Finish, World};
use std::alloc::Global;

/// Parses the positional parameters of `env` by an optstring, and runs the rest of `words` in the directory `dir` over `world`, with at
/// most `budget` units: one for elgetopt itself, taken first, and those of the run. The first word is elgetopt's name, and the second
/// the optstring; elgetopt has no options of its own.
///
/// Each of these is refused with status 100, tested in this order:
///
/// 1. no optstring (`argument missing`);
/// 2. an optstring that isn't distinct ASCII letters and digits, each with or without `:` behind it (`wrong usage`);
/// 3. positional parameters that aren't set (`no positional parameters`);
/// 4. an argument's letter that the optstring doesn't have (`unknown option -x`), or one that lacks its value (`option -x needs a
///    value`).
///
/// The arguments are read as options (`read_args`). All variables whose names begin with `ELGETOPT_` are removed, and for each letter read
/// `ELGETOPT_` and the letter is set to its last value, or to `1` where it takes none. The arguments left become `1` and so on, `#` is
/// their number, and `0` stays.
///
/// The rest is run as `el_machine::run` says; without any the answer is Status(0).
///
/// The rule is execline's (https://skarnet.org/software/execline/elgetopt.html), but for the variables of an earlier parsing, which that
/// one keeps under other names.
pub fn elgetopt<W: World>(
    alloc: Global,
    words: &Words,
    env: Env,
    dir: Word,
    world: &mut W,
    budget: u64,
) -> Finish
    requires { 0 < length words.now }
    ensures parses { ParsesAndRuns (W.seen world.old) (W.seen world.new) words.now env dir budget result }
    ensures cause { IsCaused (W.seen world.old) (W.seen world.new) words.now env dir budget result }
    ensures told { Tells (W.seen world.old) (W.seen world.new) (elgetopt_call words.now env dir) budget (outcome_of result) }
    ensures run { RanWith (W.seen world.old) (W.seen world.new) (elgetopt_call words.now env dir) budget (outcome_of result) }
    ensures spent { result ≡ Finish.Spent → Ran (W.seen world.old) (W.seen world.new) (elgetopt_call words.now env dir) budget (outcome_of result) 0 }
{
    let mut proc = first_process(alloc, env, dir, budget);
    if !take_unit(&mut proc) {
        return Finish::Spent;
    }
    run_parsed(alloc, words, &mut proc, world)
}

// A process at its start: it has no words yet.
fn first_process(alloc: Global, env: Env, dir: Word, budget: u64) -> Proc
    ensures state { state_of result ≡ first_state env dir }
    ensures budget { result.budget ≡ budget }
{
    Proc {
        words: Words::new(alloc),
        env,
        fds: Fds::standard(),
        dir,
        kids: Kids::new(alloc),
        budget,
    }
}

// What these words are parsed as is run in a process that has no words yet, or refused.
fn run_parsed<W: World>(alloc: Global, words: &Words, proc: &mut Proc, world: &mut W) -> Finish
    requires named { 0 < length words.now }
    requires standard { proc.old.fds ≡ standard_fds }
    ensures { DoesFrom (parsed words.now proc.old.env) (W.seen world.old) (W.seen world.new) (state_of proc.old) proc.old.budget result }
{
    match parse(alloc, words, &mut proc.env) {
        Ok(rest) => {
            proc.words = rest;
            run(alloc, proc, world)
        }
        Err(ParseFault::Refused(trouble)) => {
            refused_as(alloc, &proc.fds, elgetopt_name(), trouble, None, world)
        }
        Err(ParseFault::NoMemory) => Finish::NoMemory,
    }
}

/// The name under which elgetopt complains.
#[tactic(auto, unfolding(crate::specs::Parsing::elgetopt_name))]
pub fn elgetopt_name() -> &'static [u8]
    ensures same { result.now ≡ elgetopt_name }
    ensures no_nul { HasNul result.now → ⊥ }
{
    b"elgetopt"
}
