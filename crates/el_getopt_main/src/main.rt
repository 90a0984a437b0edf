//! elgetopt: it collects what it was started with, and runs the call of elgetopt over the real World, whose calls are told.
#![tactic(auto)]

ghost use Rattle.std.specs.Prelude.{◌≡◌, ◌<◌, length, IfOk};

use el_getopt::{elgetopt, elgetopt_name};
use el_real::{Given, RealWorld, Runner, collect, end, end_without};
use el_told::Told;
use el_words::{NoMemory, Words};
use el_world::Finish;
use std::alloc::Global;
use std::process::ExitCode;

// What it complains as, by whatever name it was called.
const NAME: &str = "elgetopt";

fn main(rt: HostRuntime) -> ExitCode {
    match collect(&rt, Runner::Beside) {
        Ok(given) => end(&rt, NAME, run(rt, given)),
        Err(lack) => end_without(&rt, NAME, lack),
    }
}

fn run(rt: HostRuntime, given: Given) -> Finish {
    let Given {
        words,
        env,
        dir,
        parent,
        null,
    } = given;
    let alloc = rt.alloc();
    let Ok(words) = named(alloc, words) else {
        return Finish::NoMemory;
    };
    let process = rt.process();
    let (input, output, errors) = (rt.stdin(), rt.stdout(), rt.stderr());
    let outside = RealWorld::new(rt, process, parent, null, input, output, errors);
    let mut world = Told::new(outside);
    elgetopt(alloc, &words, env, dir, &mut world, u64::MAX)
}

// The words; a process may be started without any, not even a name.
fn named(alloc: Global, words: Words) -> Result<Words, NoMemory>
    ensures named { IfOk result (λ named. 0 < length named) }
    ensures same { 0 < length words → IfOk result (λ named. named ≡ words) }
{
    if !words.is_empty() {
        return Ok(words);
    }
    let mut named = Words::new(alloc);
    named.push(elgetopt_name())?;
    Ok(named)
}
