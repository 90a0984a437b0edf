//! Why a call failed, in a line that is written before its message.
ghost use Rattle.std.specs.Prelude.{◌≡◌, [], IfOk};
ghost use Rattle.el_real.specs.Reasons.{failed_text, unstartable_text, unfound_text, not_text, call_word, reason_line, tells_of_call, without_number, IsReason, IsKept};

use crate::lack::Lack;
use crate::shown::{put_plain, put_shown};
use el_words::{Bytes, NoMemory};
use std::alloc::Global;
use std::io;

/// What is asked of the system.
#[derive(Clone, Copy, PartialEq, Eq)]
pub enum Call {
    /// To start a program.
    Start,
    /// To wait for a process.
    Wait,
    /// To open a file.
    Open,
    /// To make a pipe.
    Pipe,
    /// To make a file in a folder, which a text is read from.
    Feed,
    /// To read.
    Read,
    /// To write.
    Write,
    /// To write what the process puts out itself, of which no message may tell.
    Output,
    /// To enter a directory.
    Enter,
    /// To name the directory of this process.
    Directory,
}

/// The line that tells why a call with this name failed; nothing where the system said nothing of it, and where there is
/// no memory for the line.
pub fn reason_of(alloc: Global, call: Call, name: &[u8], lack: Lack) -> Bytes
    ensures { IsKept call name.now lack result }
{
    match told_reason(alloc, call, name, lack) {
        Ok(line) => line,
        Err(NoMemory) => Bytes::new(alloc),
    }
}

/// Whether these bytes are the message of a failed call, or of a command that doesn't run.
pub fn tells_of_call(bytes: &[u8]) -> bool
    ensures { result ≡ tells_of_call bytes.now }
{
    bytes.ends_with(failed_text())
        || bytes.ends_with(unstartable_text())
        || bytes.ends_with(unfound_text())
}

// The line, unless there is no memory for it.
fn told_reason(alloc: Global, call: Call, name: &[u8], lack: Lack) -> Result<Bytes, NoMemory>
    ensures { IfOk result (λ line. IsReason call name.now lack line) }
{
    match lack {
        Lack::Refused(number) => {
            let text = system_text(alloc, number)?;
            reason_line(alloc, call, name, text.as_bytes())
        }
        Lack::NotText => reason_line(alloc, call, name, not_text()),
        Lack::Failed | Lack::NoMemory => Ok(Bytes::new(alloc)),
    }
}

// `execline: `, the call, its name where it has one, and what the system said.
fn reason_line(alloc: Global, call: Call, name: &[u8], text: &[u8]) -> Result<Bytes, NoMemory>
    ensures { IfOk result (λ line. line ≡ reason_line call name.now text.now) }
{
    let mut line = Bytes::from_slice(alloc, b"execline: ")?;
    line.append(call.word())?;
    if !name.is_empty() {
        line.append(b" ")?;
        put_shown(name, &mut line)?;
    }
    line.append(b": ")?;
    put_plain(text, &mut line)?;
    line.append(b"\n")?;
    Ok(line)
}

/// What the system calls the error of this number.
pub fn system_text(alloc: Global, number: i32) -> Result<Bytes, NoMemory> {
    let error = io::Error::from_raw_os_error(number);
    let shown = format!(in alloc; "{error}")?;
    let behind = format!(in alloc; " (os error {number})")?;
    Bytes::from_slice(alloc, without_number(shown.as_bytes(), behind.as_bytes()))
}

// The library writes the number behind the text.
fn without_number<'a>(shown: &'a [u8], number: &[u8]) -> &'a [u8]
    ensures { result.now ≡ without_number shown.now number.now }
{
    match shown.strip_suffix(number) {
        Some(text) => text,
        None => shown,
    }
}

// How the message of a failed call ends.
#[tactic(auto, unfolding(crate::specs::Reasons::failed_text))]
fn failed_text() -> &'static [u8]
    ensures { result.now ≡ failed_text }
{
    b": system call failed\n"
}

// How the message of a command ends that the system doesn't run.
#[tactic(auto, unfolding(crate::specs::Reasons::unstartable_text))]
fn unstartable_text() -> &'static [u8]
    ensures { result.now ≡ unstartable_text }
{
    b": command not startable\n"
}

// How the message of a command ends that isn't found.
#[tactic(auto, unfolding(crate::specs::Reasons::unfound_text))]
fn unfound_text() -> &'static [u8]
    ensures { result.now ≡ unfound_text }
{
    b": command not found\n"
}

// What is said where something that the system is to be told isn't UTF-8.
#[tactic(auto, unfolding(crate::specs::Reasons::not_text))]
fn not_text() -> &'static [u8]
    ensures { result.now ≡ not_text }
{
    b"bytes that aren't UTF-8"
}

impl Call {
    // The word for it in a line.
    #[tactic(auto, unfolding(crate::specs::Reasons::call_word))]
    fn word(self) -> &'static [u8]
        ensures { result.now ≡ call_word self }
    {
        match self {
            Call::Start => b"start".as_slice(),
            Call::Wait => b"wait".as_slice(),
            Call::Open => b"open".as_slice(),
            Call::Pipe => b"pipe".as_slice(),
            Call::Feed => b"temporary file in".as_slice(),
            Call::Read => b"read".as_slice(),
            Call::Write | Call::Output => b"write".as_slice(),
            Call::Enter => b"cd".as_slice(),
            Call::Directory => b"current directory".as_slice(),
        }
    }
}
