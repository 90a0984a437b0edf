//! elglob: a program of its own. It collects what it was started with, and runs elglob over the real Lister and the
//! real World, whose calls are told.
#![tactic(auto)]

use el_glob::{RealLister, elglob};
use el_proc::WRONG_USE;
use el_real::{Given, RealWorld, Runner, collect, end, end_without};
use el_told::Told;
use el_world::Finish;
use std::process::ExitCode;

// What it complains as, by whatever name it was called.
const NAME: &str = "elglob";

fn main(rt: HostRuntime) -> ExitCode {
    match collect(&rt, Runner::Beside) {
        Ok(given) => end(&rt, NAME, run(rt, given)),
        Err(lack) => end_without(&rt, NAME, lack),
    }
}

fn run(rt: HostRuntime, given: Given) -> Finish {
    let Given {
        words,
        env,
        dir,
        parent,
        null,
    } = given;
    // A process may be started without any word, not even its name.
    if words.len() == 0 {
        let _ = eprintln!(rt; "{NAME}: argument missing");
        return Finish::Status(WRONG_USE);
    }
    let alloc = rt.alloc();
    let Ok(own) = dir.copy() else {
        return Finish::NoMemory;
    };
    let mut lister = RealLister::new(rt, alloc, own);
    let process = rt.process();
    let (input, output, errors) = (rt.stdin(), rt.stdout(), rt.stderr());
    let outside = RealWorld::new(rt, process, parent, null, input, output, errors);
    let mut world = Told::new(outside);
    elglob(alloc, &words, env, dir, &mut lister, &mut world, u64::MAX)
}
