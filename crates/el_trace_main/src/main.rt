//! eltrace: it reads a script and a trace, and says whether the trace is a run of the script; or it shows a trace.
#![tactic(auto)]

use el_record::{TraceFault, parse_trace};
use el_trace::{Shown, bad_trace_shown, trace_answer, trace_lines};
use el_words::NoMemory;
use std::alloc::{AllocError, Global};
use std::fs::File;
use std::io::{ErrorKind, Read, Write};
use std::process::ExitCode;
use std::{env, io};

// The statuses of a wrong use, of want of memory and of a failed system call.
const WRONG_USE: u8 = 100;

const NO_MEMORY: u8 = 110;

const FAILED_CALL: u8 = 111;

// How many bytes of a file are read at once.
const PIECE: usize = 65_536;

// The word before a trace that is to be shown.
const SHOW: &str = "--show";

// Why nothing is answered.
#[derive(Clone, Copy)]
enum Trouble {
    // The words are no use of the program.
    WrongUsage,
    // A file couldn't be read, or the answer not be written.
    Failed,
    // There was no memory.
    NoMemory,
}

impl From<NoMemory> for Trouble {
    fn from(_: NoMemory) -> Self {
        Trouble::NoMemory
    }
}

impl From<AllocError> for Trouble {
    fn from(_: AllocError) -> Self {
        Trouble::NoMemory
    }
}

impl From<io::Error> for Trouble {
    fn from(error: io::Error) -> Self {
        match error.kind() {
            ErrorKind::OutOfMemory => Trouble::NoMemory,
            _ => Trouble::Failed,
        }
    }
}

fn main(rt: HostRuntime) -> ExitCode {
    let alloc = rt.alloc();
    let status = match answered(&rt, alloc) {
        Ok(shown) => tell(&rt, &shown),
        Err(trouble) => complain(&rt, trouble),
    };
    ExitCode::from(status)
}

// What is answered to the words that the program was started with.
fn answered(rt: &HostRuntime, alloc: Global) -> Result<Shown, Trouble> {
    let mut words = env::args(rt)?;
    let _name = words.next();
    let (Some(first), Some(trace), None) = (words.next(), words.next(), words.next()) else {
        return Err(Trouble::WrongUsage);
    };
    if first.as_str() == SHOW {
        let trace = bytes_of(rt, alloc, trace.as_str())?;
        return Ok(lines_of(alloc, &trace)?);
    }
    let script = bytes_of(rt, alloc, first.as_str())?;
    let trace = bytes_of(rt, alloc, trace.as_str())?;
    Ok(trace_answer(alloc, &script, &trace)?)
}

// What stands in a file. It is read in pieces: the library's own call takes longer, since it writes each byte twice.
fn bytes_of(rt: &HostRuntime, alloc: Global, path: &str) -> Result<Vec<u8>, Trouble> {
    let mut file = File::open(rt, path)?;
    let mut piece = [0; PIECE];
    let mut bytes = Vec::new(alloc);
    for _ in 0..u64::MAX {
        match file.read(&mut piece) {
            Ok(0) => break,
            Ok(count) => bytes.extend_from_slice(&piece[..count])?,
            Err(error) if error.kind() == ErrorKind::Interrupted => {}
            Err(error) => return Err(Trouble::from(error)),
        }
    }
    Ok(bytes)
}

// The lines of the trace of this text, where it is a trace's.
fn lines_of(alloc: Global, text: &[u8]) -> Result<Shown, NoMemory> {
    match parse_trace(alloc, text) {
        Ok(trace) => Ok(Shown {
            line: trace_lines(alloc, &trace)?,
            status: 0,
        }),
        Err(TraceFault::BadTrace { .. }) => bad_trace_shown(alloc),
        Err(TraceFault::NoMemory) => Err(NoMemory),
    }
}

// Prints the line, and gives the status.
fn tell(rt: &HostRuntime, shown: &Shown) -> u8 {
    match rt.stdout().write_all(shown.line.as_bytes()) {
        Ok(()) => shown.status,
        Err(_) => complain(rt, Trouble::Failed),
    }
}

// Says why nothing is answered, and gives the status of that.
fn complain(rt: &HostRuntime, trouble: Trouble) -> u8 {
    match trouble {
        Trouble::WrongUsage => {
            let _ = eprintln!(rt; "eltrace: wrong usage");
            WRONG_USE
        }
        Trouble::Failed => {
            let _ = eprintln!(rt; "eltrace: system call failed");
            FAILED_CALL
        }
        Trouble::NoMemory => NO_MEMORY,
    }
}
