//! elfamily: it collects the words that it was started with, runs the family that they ask for in memory, and tells of it.
#![tactic(auto)]

ghost use Rattle.std.specs.Prelude.{◌≡◌, drop};

use el_family::{End, complaint_of, elfamily, finish_of};
use el_real::{Runner, collect, end, end_without};
use el_words::Words;
use std::io::Write;
use std::process::ExitCode;

// What it complains as, by whatever name it was called.
const NAME: &str = "elfamily";

// Standard output took not all.
const FAILED: u8 = 111;

fn main(rt: HostRuntime) -> ExitCode {
    match collect(&rt, Runner::Beside) {
        Ok(given) => tell(rt, &elfamily(rt.alloc(), behind_name(given.words))),
        Err(lack) => end_without(&rt, NAME, lack),
    }
}

// The words behind the name; a process may be started without any, not even a name.
fn behind_name(mut words: Words) -> Words
    ensures { result ≡ drop 1 words }
{
    if !words.is_empty() {
        words.drop_front(1);
    }
    words
}

// Writes what is told to standard output, or the complaint to standard error.
fn tell(rt: HostRuntime, ended: &End) -> ExitCode {
    if let End::Told(text) = ended {
        if rt.stdout().write_all(text.as_bytes()).is_err() {
            let _ = eprintln!(rt; "{NAME}: system call failed");
            return ExitCode::from(FAILED);
        }
    }
    if let Some(complaint) = complaint_of(ended) {
        let _ = eprintln!(rt; "{NAME}: {complaint}");
    }
    end(&rt, NAME, finish_of(ended))
}
