//! How a script is called, as its first line says.
#![tactic(auto, using(crate::proofs::FirstLines::first_lines))]

ghost use Rattle.std.specs.Prelude.{◌≡◌, ◌<◌, ◌++◌, ◌∷◌, [], length, drop, IfOk, OnOk};
ghost use Rattle.std.specs.List.{filter, slice_split};
ghost use Rattle.el_lint.specs.Allowances.{is_blank};
ghost use Rattle.el_lint.specs.FirstLines.{first_line, unmarked, marked, marked_fault, returned, refused_by, words_of, is_word, words_in, said, said_directly, said_by_env, is_apart, started, from_execlineb, names_execlineb, names_env, takes_apart, starts_execlineb, call_said, params_of, names_itself};

use crate::line_fault::LineFault;
use crate::mode::read_called;
use crate::newline::{cut_line, cut_word};
use el_check::Params;
use el_options::{Opt, Table};
use el_proc::Trouble;
use el_words::{NoMemory, Words};
use std::alloc::Global;

/// The options of execlineb that a first line may have.
const FIRST_LINE: Table<6> = Table {
    opts: [
        Opt {
            letter: b'q',
            takes: false,
        },
        Opt {
            letter: b'w',
            takes: false,
        },
        Opt {
            letter: b'W',
            takes: false,
        },
        Opt {
            letter: b'P',
            takes: false,
        },
        Opt {
            letter: b'S',
            takes: true,
        },
        Opt {
            letter: b's',
            takes: true,
        },
    ],
};

/// What a script's first line says.
#[derive(Clone, Copy)]
pub enum FirstLine {
    /// There is no such line.
    Absent,
    /// It calls execlineb so.
    Calls(Params),
    /// The script can't be called by it.
    Refused(LineFault),
}

impl FirstLine {
    /// Whether the line names execlineb, be it that the script can't be called so.
    pub fn names_execlineb(self) -> bool
        ensures { result ≡ names_itself self }
    {
        match self {
            FirstLine::Absent => false,
            FirstLine::Calls(_) => true,
            FirstLine::Refused(fault) => fault != LineFault::NotExecline,
        }
    }

    /// How the script is called where the user says so, by `mode`, and else where the line does; or why it can't be.
    pub fn params(self, mode: Option<Params>) -> Result<Params, LineFault>
        ensures { result ≡ params_of self mode }
    {
        match self {
            FirstLine::Absent => Ok(mode.unwrap_or(Params::Frame)),
            FirstLine::Calls(params) => Ok(mode.unwrap_or(params)),
            FirstLine::Refused(fault) => refused(fault, mode),
        }
    }
}

// A byte order mark counts before what the user says, and any other fault after it.
fn refused(fault: LineFault, mode: Option<Params>) -> Result<Params, LineFault>
    ensures { result ≡ refused_by fault mode }
{
    match mode {
        Some(params) if fault != LineFault::ByteOrderMark => Ok(params),
        _ => Err(fault),
    }
}

/// What the first line of `script` says. The only error is want of memory.
pub fn first_line_of(alloc: Global, script: &[u8]) -> Result<FirstLine, NoMemory>
    ensures { IfOk result (λ line. line ≡ first_line script.now) }
{
    if script.starts_with(b"\xef\xbb\xbf".as_slice()) {
        Ok(marked(unmarked(alloc, &script[3..])?))
    } else {
        unmarked(alloc, script)
    }
}

// The same behind a byte order mark, which the system doesn't know.
fn marked(line: FirstLine) -> FirstLine
    ensures { result ≡ marked line }
{
    match line {
        FirstLine::Absent | FirstLine::Calls(_) => FirstLine::Refused(LineFault::ByteOrderMark),
        FirstLine::Refused(fault) => FirstLine::Refused(marked_fault(fault)),
    }
}

fn marked_fault(fault: LineFault) -> LineFault
    ensures { result ≡ marked_fault fault }
{
    if fault == LineFault::NotExecline {
        fault
    } else {
        LineFault::ByteOrderMark
    }
}

// What the first line of a text without such a mark says.
fn unmarked(alloc: Global, script: &[u8]) -> Result<FirstLine, NoMemory>
    ensures { IfOk result (λ line. line ≡ unmarked script.now) }
{
    let line = cut_line(script).piece;
    if line.ends_with(b"\r".as_slice()) {
        Ok(returned(said(alloc, words_of(alloc, &line[..line.len() - 1])?)?))
    } else {
        said(alloc, words_of(alloc, line)?)
    }
}

// The same before a carriage return, which the system takes as a part of the last word.
fn returned(line: FirstLine) -> FirstLine
    ensures { result ≡ returned line }
{
    if line.names_execlineb() {
        FirstLine::Refused(LineFault::CarriageReturn)
    } else {
        line
    }
}

// The words of a line that begins with `#!`; any other has none.
fn words_of(alloc: Global, line: &[u8]) -> Result<Words, NoMemory>
    ensures { IfOk result (λ words. words ≡ words_of line.now) }
{
    if line.starts_with(b"#!".as_slice()) {
        words_in(alloc, &line[2..])
    } else {
        Ok(Words::new(alloc))
    }
}

fn words_in(alloc: Global, text: &[u8]) -> Result<Words, NoMemory>
    ensures { IfOk result (λ words. words ≡ words_in text.now) }
{
    let mut words = Words::new(alloc);
    let mut left = Some(text);
    while let Some(text) = left {
        let cut = cut_word(text);
        put_piece(cut.piece, &mut words)?;
        left = cut.rest;
    }
    Ok(words)
}

fn put_piece(piece: &[u8], words: &mut Words) -> Result<(), NoMemory>
    ensures { OnOk result (words.new ≡ words.old ++ filter is_word (piece.now ∷ [])) }
{
    if is_word(piece) {
        words.push(piece)
    } else {
        Ok(())
    }
}

fn is_word(piece: &[u8]) -> bool
    ensures { result ≡ is_word piece.now }
{
    !piece.is_empty() && !piece.contains(&0)
}

// What the words of a first line say.
fn said(alloc: Global, words: Words) -> Result<FirstLine, NoMemory>
    ensures { IfOk result (λ line. line ≡ said words) }
{
    let Some(path) = words.first() else {
        return Ok(FirstLine::Absent);
    };
    if names_execlineb(path) {
        said_directly(alloc, &words)
    } else if names_env(path) {
        behind_env(alloc, words)
    } else {
        Ok(FirstLine::Refused(LineFault::NotExecline))
    }
}

// Words of which the first is the path of execlineb: the system passes those behind it as one.
fn said_directly(alloc: Global, words: &Words) -> Result<FirstLine, NoMemory>
    requires { 0 < length words.now }
    ensures { IfOk result (λ line. line ≡ said_directly words.now) }
{
    if words.len() > 2 {
        Ok(FirstLine::Refused(LineFault::SeveralWords))
    } else {
        call_said(alloc, words)
    }
}

// Words of which the first is the path of env.
fn behind_env(alloc: Global, words: Words) -> Result<FirstLine, NoMemory>
    requires { 0 < length words }
    ensures { IfOk result (λ line. line ≡ said_by_env (drop 1 words)) }
{
    let mut words = words;
    words.drop_front(1);
    let is_apart = is_apart(&words);
    said_by_env(alloc, is_apart, &from_execlineb(words))
}

// Whether the first of these words makes env take them apart.
fn is_apart(words: &Words) -> bool
    ensures { result ≡ is_apart words.now }
{
    !words.is_empty() && takes_apart(words.at(0))
}

// What env starts, by the words from execlineb on. Only behind `-S` it takes words apart.
fn said_by_env(alloc: Global, is_apart: bool, words: &Words) -> Result<FirstLine, NoMemory>
    ensures { IfOk result (λ line. line ≡ started is_apart words.now) }
{
    if words.is_empty() {
        Ok(FirstLine::Refused(LineFault::NotExecline))
    } else if !is_apart && words.len() > 1 {
        Ok(FirstLine::Refused(LineFault::TakenWhole))
    } else {
        call_said(alloc, words)
    }
}

fn from_execlineb(words: Words) -> Words
    ensures { result ≡ from_execlineb words }
{
    let mut words = words;
    while !words.is_empty() {
        if starts_execlineb(words.at(0)) {
            return words;
        }
        words.drop_front(1);
    }
    words
}

#[tactic(auto, unfolding(crate::specs::FirstLines::names_execlineb))]
fn names_execlineb(word: &[u8]) -> bool
    ensures { result ≡ names_execlineb word.now }
{
    word == b"execlineb".as_slice() || word.ends_with(b"/execlineb".as_slice())
}

#[tactic(auto, unfolding(crate::specs::FirstLines::names_env))]
fn names_env(word: &[u8]) -> bool
    ensures { result ≡ names_env word.now }
{
    word == b"env".as_slice() || word.ends_with(b"/env".as_slice())
}

#[tactic(auto, unfolding(crate::specs::FirstLines::takes_apart))]
fn takes_apart(word: &[u8]) -> bool
    ensures { result ≡ takes_apart word.now }
{
    word.starts_with(b"-S".as_slice())
        || word.starts_with(b"-iS".as_slice())
        || word.starts_with(b"-vS".as_slice())
}

#[tactic(auto, unfolding(crate::specs::FirstLines::starts_execlineb))]
fn starts_execlineb(word: &[u8]) -> bool
    ensures { result ≡ starts_execlineb word.now }
{
    names_execlineb(word) || word.ends_with(b"Sexeclineb".as_slice())
}

// What a call of execlineb says, of which the file comes last.
fn call_said(alloc: Global, words: &Words) -> Result<FirstLine, NoMemory>
    requires { 0 < length words.now }
    ensures { IfOk result (λ line. line ≡ call_said words.now) }
{
    match read_called(alloc, &[b"qwW", b"PSs"], &FIRST_LINE, words)? {
        Ok(called) if called.used < words.len() => { Ok(FirstLine::Refused(LineFault::WordBehind)) }
        Ok(called) => Ok(FirstLine::Calls(called.mode.unwrap_or(Params::Frame))),
        Err(Trouble::BadNumber) => Ok(FirstLine::Refused(LineFault::BadNumber)),
        Err(_) => Ok(FirstLine::Refused(LineFault::BadOption)),
    }
}
