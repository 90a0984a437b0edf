//! The process's own streams, where they were closed at its start.
ghost use Rattle.std.specs.Prelude.{◌≡◌, None, IfOk, OnErr};
ghost use Rattle.el_real.specs.Streams.{are_at, IsLent};

use el_words::NoMemory;
use libc::{ESPIPE, SEEK_CUR};
use std::alloc::Global;
use std::fs::{File, OpenOptions};
use std::io;
use std::os::fd::{AsRawFd, RawFd};
use std::rt::Files;

// How many streams of its own a process has: the numbers 0 to 2.
const STREAMS: i32 = 3;

/// The null device at each of the numbers 0 to 2 that was closed when the process was started, for as long as it runs:
/// whatever is opened next would be taken for a stream otherwise.
#[derive(Drop)]
pub struct NullStreams {
    files: Vec<File>,
    // What children are given, from the first start that wants it until its descriptor is wanted.
    lent: Option<File>,
}

impl NullStreams {
    /// Opens it at each closed one of these numbers. Each file gets the least number that is free, so that one
    /// above them says that none is. Where neither the device nor the root can be opened, what is closed stays so.
    /// `NoMemory` where there is no memory for the list of the files.
    pub fn open(rt: &impl Files<File = File>, alloc: Global) -> Result<NullStreams, NoMemory> {
        let mut files = Vec::new(alloc);
        if (0..STREAMS).all(is_open) {
            return Ok(NullStreams { files, lent: None });
        }
        for _ in 0..STREAMS {
            match null_device(rt) {
                Ok(file) if file.as_raw_fd() < STREAMS => files.push(file)?,
                _ => break,
            }
        }
        Ok(NullStreams { files, lent: None })
    }

    /// Whether this number was closed.
    pub fn holds(&self, number: u64) -> bool
        ensures { result ≡ are_at self.now.files.items number }
    {
        self.files
            .iter()
            .any(|file| u64::try_from(file.as_raw_fd()) == Ok(number))
    }

    /// The number of the null device for a child, which is open until `give_back`: a loop starts many children. The error is that
    /// of the system, where it can't be opened. What was closed at the start stays as it is.
    pub(crate) fn lend(&mut self, rt: &impl Files<File = File>) -> io::Result<RawFd>
        ensures files { self.new.files ≡ self.old.files }
        ensures lent { IfOk result (IsLent self.old.lent self.new.lent) }
        ensures none { OnErr result (self.new.lent ≡ None) }
    {
        if let Some(file) = &self.lent {
            return Ok(file.as_raw_fd());
        }
        let file = null_device(rt)?;
        let number = file.as_raw_fd();
        self.lent = Some(file);
        Ok(number)
    }

    /// Closes what was lent, so that another call has its descriptor.
    pub(crate) fn give_back(&mut self)
        ensures files { self.new.files ≡ self.old.files }
        ensures lent { self.new.lent ≡ None }
    {
        self.lent = None;
    }
}

// Whether the number is known to be open: it has a place in its file, or is a stream without places. That asks the system for less
// than to open a file does.
fn is_open(number: i32) -> bool {
    libc::lseek(number, 0, SEEK_CUR) >= 0 || os::errno() == ESPIPE
}

/// The null device; in a root without devices the root itself, from which nothing is read and to which nothing is written.
fn null_device(rt: &impl Files<File = File>) -> io::Result<File> {
    let mut options = OpenOptions::new();
    options.read(true).write(true);
    match options.open(rt, "/dev/null") {
        Ok(file) => Ok(file),
        Err(_) => File::open(rt, "/"),
    }
}
