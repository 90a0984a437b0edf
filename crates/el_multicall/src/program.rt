//! The program of all names, over a World.
ghost use Rattle.std.specs.Prelude.{◌≡◌, ◌<◌, [], drop, length};
ghost use Rattle.el_told.specs.Telling.{telling, seen_of};
ghost use Rattle.el_multicall.specs.Record.{elrecord_words};
ghost use Rattle.el_multicall.specs.Program.{IsTopCall, IsElrecordCall, IsCallOf, IsProgramRun};

use crate::elrecord::elrecord;
use crate::top::{elrecord_place, top_words};
use el_app::execline;
use el_env::Env;
use el_told::Told;
use el_words::{NoMemory, Word, Words};
use el_world::{Finish, World};
use std::alloc::Global;

/// Runs the program of a process with these words, this environment and this directory, with the greatest budget, over a
/// world that tells each call that it passes on to `world`. So its log is known even if `world` tells nothing.
///
/// `world` must hold no handle. What it became is given back.
pub fn run_told<W: World>(
    alloc: Global,
    words: Words,
    env: Env,
    dir: Word,
    world: W,
) -> (Finish, Told<W>)
    requires { (W.seen world).held ≡ [] }
    ensures { IsProgramRun (telling (W.seen world) []) (seen_of W.seen result.1) words env dir result.0 }
{
    run_program(alloc, words, env, dir, Told::new(world))
}

/// Runs the program of a process with these words, this environment and this directory, with the greatest budget: elrecord
/// if the words choose it, and the top call otherwise. The name under which this program is built stands for `execline`.
///
/// The answer is that of the call, or `NoMemory` if there is no memory for its words; then nothing was called. `world` must
/// hold no handle, and is given back.
pub fn run_program<W: World>(
    alloc: Global,
    words: Words,
    env: Env,
    dir: Word,
    world: W,
) -> (Finish, W)
    requires { (W.seen world).held ≡ [] }
    ensures { IsProgramRun (W.seen world) (W.seen result.1) words env dir result.0 }
{
    match top_words(alloc, words) {
        Ok(top) => run_chosen(alloc, top, env, dir, world),
        Err(NoMemory) => (Finish::NoMemory, world),
    }
}

// elrecord if these words choose it, and the top call otherwise.
fn run_chosen<W: World>(alloc: Global, words: Words, env: Env, dir: Word, world: W) -> (Finish, W)
    requires { (W.seen world).held ≡ [] }
    ensures { IsCallOf (elrecord_words words) (W.seen world) (W.seen result.1) words env dir result.0 }
{
    match elrecord_place(&words) {
        Some(place) => run_elrecord(alloc, words, place, env, dir, world),
        None => run_top(alloc, &words, env, dir, world),
    }
}

// elrecord, whose own words begin at this place.
fn run_elrecord<W: World>(
    alloc: Global,
    mut words: Words,
    place: usize,
    env: Env,
    dir: Word,
    world: W,
) -> (Finish, W)
    requires free { (W.seen world).held ≡ [] }
    requires within { place < length words }
    ensures { IsElrecordCall (W.seen world) (W.seen result.1) (drop place words) env dir result.0 }
{
    words.drop_front(place);
    elrecord(alloc, &words, env, dir, world, u64::MAX)
}

fn run_top<W: World>(alloc: Global, words: &Words, env: Env, dir: Word, mut world: W) -> (Finish, W)
    ensures { IsTopCall (W.seen world) (W.seen result.1) words.now env dir result.0 }
{
    let finish = execline(alloc, words, env, dir, &mut world, u64::MAX);
    (finish, world)
}
