//! The files that are looked at.

use crate::{INPUT, NAME};
use el_proc::FAILED_CALL;
use el_real::{Lack, system_text};
use el_words::{Bytes, NoMemory};
use std::alloc::Global;
use std::fs::File;
use std::io::{Read, Write};
use std::{fs, io};

// How many bytes a byte order mark and `#!` have together.
const HEAD: usize = 5;

/// The bytes of a file.
pub(crate) fn bytes_of(rt: &HostRuntime, alloc: Global, path: &str) -> io::Result<Vec<u8>> {
    if path.as_bytes() != INPUT {
        return fs::read(rt, path);
    }
    let mut script = Vec::new(alloc);
    rt.stdin().read_to_end(&mut script)?;
    Ok(script)
}

/// Whether a file begins as one that the system starts by its first line, also behind a byte order mark.
pub(crate) fn has_mark(rt: &HostRuntime, path: &str) -> io::Result<bool> {
    let mut file = File::open(rt, path)?;
    let mut head = [0u8; HEAD];
    let read = file.read(head.as_mut_slice())?;
    let head = head.get(..read).unwrap_or(b"");
    Ok(head.starts_with(b"#!".as_slice()) || head == b"\xef\xbb\xbf#!".as_slice())
}

/// Says why a file can't be read, and gives the status of that.
pub(crate) fn tell_error(
    rt: &HostRuntime,
    alloc: Global,
    path: &str,
    error: io::Error,
) -> Result<u8, NoMemory> {
    let text = match Lack::from(error) {
        Lack::NoMemory => return Err(NoMemory),
        Lack::Refused(number) => system_text(alloc, number)?,
        Lack::NotText => Bytes::from_slice(alloc, b"a name that isn't UTF-8")?,
        Lack::Failed => Bytes::from_slice(alloc, b"it can't be read")?,
    };
    let _ = eprint!(rt; "{NAME}: {path}: ");
    let _ = rt.stderr().write_all(text.as_bytes());
    let _ = eprintln!(rt; "");
    Ok(FAILED_CALL)
}

/// Says that a file's name isn't UTF-8, and gives the status of that.
pub(crate) fn tell_not_text(rt: &HostRuntime) -> u8 {
    let _ = eprintln!(rt; "{NAME}: system call failed");
    FAILED_CALL
}
