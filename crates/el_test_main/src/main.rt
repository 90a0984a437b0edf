//! eltest: whether the expression that its words are is true.
#![tactic(auto)]

use el_test::{OWN_DIRECTORY, RealAsker, TestEnd, eltest, show, status_of, words_of};
use el_words::Word;
use std::alloc::Global;
use std::io::Write;
use std::process::ExitCode;

fn main(rt: HostRuntime) -> ExitCode {
    let alloc = rt.alloc();
    let end = match run(rt, alloc) {
        Ok(end) | Err(end) => end,
    };
    if let Ok(message) = show(alloc, &end) {
        let _ = rt.stderr().write_all(message.as_bytes());
    }
    ExitCode::from(status_of(end))
}

// The error is an end too: that without words.
fn run(rt: HostRuntime, alloc: Global) -> Result<TestEnd, TestEnd> {
    let words = words_of(&rt, alloc)?;
    let dir = Word::of(alloc, OWN_DIRECTORY)?;
    Ok(eltest(alloc, &words, &dir, &mut RealAsker::new(rt)))
}
