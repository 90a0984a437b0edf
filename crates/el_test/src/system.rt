//! What the system says of a path.

ghost use Rattle.std.specs.Prelude.{◌≡◌, ◌<◌, length};
ghost use Rattle.libc.specs.Io.{Ended};
ghost use Rattle.el_words.specs.Word.{HasNul};
ghost use Rattle.el_test.specs.System.{call_of, answer_to_use, is_of_kind, answer_to_look, answer_to_number, answer_to_refused_look, text_in};

use crate::asker::AskFault;
use crate::operators::Question;
use libc::{EACCES, ELOOP, ENOENT, ENOMEM, ENOTDIR, EPERM, EROFS, PATH_MAX};
use std::fs::{self, Metadata};
use std::io::{self, ErrorKind};
use std::rt::Files;

/// A call of the system that says something of a path.
#[derive(Clone, Copy, PartialEq, Eq)]
pub enum Call {
    /// access(2), whether this process may use the path in this way.
    Access(i32),
    /// stat(2), what the path names behind all links.
    Status,
    /// lstat(2), what the path names itself.
    LinkStatus,
}

/// The system's answer, for a path without NUL that is taken from the process's own directory. No process is started,
/// and nothing is opened.
///
/// What there is, and whether this process may read, write or run it, is asked by access(2), which counts the real user
/// and groups. What it is and how long is looked up, and so can be said of a path in UTF-8 alone. A path that names
/// nothing gives false. Failed where the system doesn't say, or the path isn't UTF-8; NoMemory where it has none.
pub fn answer_of(rt: &impl Files, path: &[u8], question: Question) -> Result<bool, AskFault>
    requires { HasNul path.now → ⊥ }
{
    match call_of(question) {
        Call::Access(mode) => answer_to_use(mode, access(path, mode)),
        Call::Status => answer_to_look(question, fs::metadata(rt, text(path)?)),
        Call::LinkStatus => answer_to_look(question, fs::symlink_metadata(rt, text(path)?)),
    }
}

/// The call that a question is asked by.
pub fn call_of(question: Question) -> Call
    ensures { result ≡ call_of question }
{
    match question {
        Question::Exists => Call::Access(libc::F_OK),
        Question::Readable => Call::Access(libc::R_OK),
        Question::Writable => Call::Access(libc::W_OK),
        Question::Runnable => Call::Access(libc::X_OK),
        Question::File | Question::Dir | Question::NotEmpty => Call::Status,
        Question::Link => Call::LinkStatus,
    }
}

fn text(path: &[u8]) -> Result<&str, AskFault> {
    str::from_utf8(path).map_err(|_| AskFault::Failed)
}

// What is said of a path that was looked up.
fn answer_to_look(question: Question, looked_up: io::Result<Metadata>) -> Result<bool, AskFault>
    ensures { result ≡ answer_to_look question looked_up }
{
    match looked_up {
        Ok(found) => Ok(is_of_kind(question, &found)),
        Err(error) => answer_to_refused_look(error.kind(), error.raw_os_error()),
    }
}

// Whether what was found is as the question asks.
fn is_of_kind(question: Question, found: &Metadata) -> bool
    ensures { result ≡ is_of_kind question found.now }
{
    match question {
        Question::File => found.is_file(),
        Question::Dir => found.is_dir(),
        Question::NotEmpty => found.len() > 0,
        Question::Link => found.is_symlink(),
        Question::Exists | Question::Readable | Question::Writable | Question::Runnable => true,
    }
}

// What an error of stat(2) and of lstat(2) answers.
fn answer_to_refused_look(kind: ErrorKind, number: Option<i32>) -> Result<bool, AskFault>
    ensures { result ≡ answer_to_refused_look kind number }
{
    match kind {
        ErrorKind::OutOfMemory => Err(AskFault::NoMemory),
        _ => answer_to_number(number),
    }
}

fn answer_to_number(number: Option<i32>) -> Result<bool, AskFault>
    ensures { result ≡ answer_to_number number }
{
    match number {
        Some(ENOENT | ENOTDIR | ELOOP) => Ok(false),
        _ => Err(AskFault::Failed),
    }
}

// What access(2) answers by its error's number, or by 0, for a use.
fn answer_to_use(mode: i32, number: i32) -> Result<bool, AskFault>
    ensures { result ≡ answer_to_use mode number }
{
    match number {
        0 => Ok(true),
        ENOENT | ENOTDIR | ELOOP => Ok(false),
        EACCES | EPERM | EROFS if mode != libc::F_OK => Ok(false),
        ENOMEM => Err(AskFault::NoMemory),
        _ => Err(AskFault::Failed),
    }
}

// 0, or the error.
fn access(path: &[u8], mode: i32) -> i32
    requires { HasNul path.now → ⊥ }
{
    if path.len() >= PATH_MAX {
        return libc::ENAMETOOLONG;
    }
    let name = c_string(path);
    // std has no such call. It reads the name alone, which ends within its bytes.
    if unsafe { libc::access(&name, mode) } == 0 {
        return 0;
    }
    os::errno()
}

// The path with a NUL behind it: what stands before the first NUL is the path.
fn c_string(path: &[u8]) -> [u8; PATH_MAX]
    requires short { length path.now < PATH_MAX }
    requires no_nul { HasNul path.now → ⊥ }
    ensures ended { Ended result }
    ensures path { text_in result ≡ path.now }
{
    let mut name = [0u8; PATH_MAX];
    name[..path.len()].copy_from_slice(path);
    name
}
