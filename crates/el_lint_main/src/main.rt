//! ellint: it reads scripts, and says what in them may be a mistake.
#![tactic(auto)]

ghost use Rattle.std.specs.Prelude.{◌≡◌, ◌<◌, length, IfOk};

mod about;
mod folder;
mod reading;

use crate::about::{tell_usage, tell_version};
use crate::folder::lint_folder;
use crate::reading::{bytes_of, has_mark, tell_error, tell_not_text};
use el_check::Params;
use el_lint::{Asked, Report, first_line_of, read_asked, refusal_of, report_of};
use el_proc::{FAILED_CALL, Trouble, usage_of};
use el_real::{Runner, collect, end, end_without};
use el_words::{NoMemory, Words};
use el_world::Finish;
use std::alloc::Global;
use std::io::Write;
use std::path::Path;
use std::process::ExitCode;

// What it complains as, by whatever name it was called.
const NAME: &str = "ellint";

// The file's name that stands for standard input.
const INPUT: &[u8] = b"-";

fn main(rt: HostRuntime) -> ExitCode {
    match collect(&rt, Runner::Beside) {
        Ok(given) => {
            let finish = lint(&rt, rt.alloc(), given.words);
            end(&rt, NAME, finish)
        }
        Err(lack) => end_without(&rt, NAME, lack),
    }
}

// Does what the words ask for: its first one is the name.
fn lint(rt: &HostRuntime, alloc: Global, words: Words) -> Finish {
    // A process may be started without any word, not even its name.
    if words.is_empty() {
        return complain(rt, alloc, Trouble::Usage);
    }
    if is_first(&words, b"--help") {
        return Finish::Status(tell_usage(rt));
    }
    if is_first(&words, b"--version") {
        return Finish::Status(tell_version(rt, alloc));
    }
    match read_asked(alloc, words) {
        Ok(Ok(asked)) => lint_all(rt, alloc, &asked),
        Ok(Err(trouble)) => complain(rt, alloc, trouble),
        Err(NoMemory) => Finish::NoMemory,
    }
}

// Whether the first word behind the name is this one.
fn is_first(words: &Words, wanted: &[u8]) -> bool {
    match words.get(1) {
        Some(word) => word == wanted,
        None => false,
    }
}

// Tells of each file; the status is the greatest of theirs.
fn lint_all(rt: &HostRuntime, alloc: Global, asked: &Asked) -> Finish {
    let mut greatest = 0;
    for name in &asked.files {
        match lint_named(rt, alloc, asked.mode, name) {
            Ok(status) => greatest = greatest.max(status),
            Err(NoMemory) => return Finish::NoMemory,
        }
    }
    Finish::Status(greatest)
}

// Tells of a file, or of the scripts in a folder, and gives the status.
fn lint_named(
    rt: &HostRuntime,
    alloc: Global,
    mode: Option<Params>,
    name: &[u8],
) -> Result<u8, NoMemory> {
    let Ok(path) = str::from_utf8(name) else {
        return Ok(tell_not_text(rt));
    };
    if name != INPUT && Path::new(path).is_dir(rt) {
        return lint_folder(rt, alloc, mode, path);
    }
    match bytes_of(rt, alloc, path) {
        Ok(script) => lint_script(rt, alloc, mode, path, &script),
        Err(error) => tell_error(rt, alloc, path, error),
    }
}

// Tells of a file that was found in a folder, if it is a script.
fn lint_found(
    rt: &HostRuntime,
    alloc: Global,
    mode: Option<Params>,
    path: &str,
) -> Result<u8, NoMemory> {
    match has_mark(rt, path) {
        Ok(false) => return Ok(0),
        Ok(true) => {}
        Err(error) => return tell_error(rt, alloc, path, error),
    }
    match bytes_of(rt, alloc, path) {
        Ok(script) if !first_line_of(alloc, &script)?.names_execlineb() => Ok(0),
        Ok(script) => lint_script(rt, alloc, mode, path, &script),
        Err(error) => tell_error(rt, alloc, path, error),
    }
}

// Tells of a script, and gives the status.
fn lint_script(
    rt: &HostRuntime,
    alloc: Global,
    mode: Option<Params>,
    path: &str,
    script: &[u8],
) -> Result<u8, NoMemory> {
    let file = path.as_bytes();
    let told = match first_line_of(alloc, script)?.params(mode) {
        Ok(params) => report_of(alloc, params, file, script)?,
        Err(fault) => refusal_of(alloc, file, fault)?,
    };
    Ok(tell(rt, &told))
}

// Writes what is told, and gives its status.
fn tell(rt: &HostRuntime, told: &Report) -> u8 {
    match rt.stdout().write_all(told.text.as_bytes()) {
        Ok(()) => told.status,
        Err(_) => {
            let _ = eprintln!(rt; "{NAME}: system call failed");
            FAILED_CALL
        }
    }
}

// Says what the words are wrong in, behind the usage where that is worth saying, and gives the status of it.
fn complain(rt: &HostRuntime, alloc: Global, trouble: Trouble) -> Finish {
    let Ok(text) = trouble.text(alloc) else {
        return Finish::NoMemory;
    };
    if trouble != Trouble::BadNumber {
        let _ = eprint!(rt; "execline: usage: ");
        let _ = rt.stderr().write_all(usage_of(NAME.as_bytes()));
        let _ = eprintln!(rt; "");
    }
    let _ = eprint!(rt; "{NAME}: ");
    let _ = rt.stderr().write_all(text.as_bytes());
    let _ = eprintln!(rt; "");
    Finish::Status(trouble.status())
}
