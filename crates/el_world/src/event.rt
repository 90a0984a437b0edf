//! Calls of a world with their answers.
ghost use Rattle.std.specs.Prelude.{◌≡◌};
ghost use Rattle.el_world.specs.declared.event.Fault.TheVariants.{NoMemory as fault_no_memory};
ghost use Rattle.el_world.specs.declared.event.StartFault.TheVariants.{NoMemory as start_no_memory};

use el_env::Env;
use el_words::{Bytes, NoMemory, Word, Words};

/// A descriptor of the process: 0, 1 or 2 of its own, or one that the world gave.
#[derive(Clone, Copy, PartialEq, Eq)]
pub struct Handle {
    /// Below 3 for the process's own, and from 3 on for those that the world gave.
    pub number: u64,
}

/// The two ends of a pipe, of which the reader has the lower number.
#[derive(Clone, Copy, PartialEq, Eq)]
pub struct PipeEnds {
    pub reader: Handle,
    pub writer: Handle,
}

/// How a file is opened.
#[derive(Clone, Copy, Debug, PartialEq, Eq)]
pub enum Mode {
    /// For reading; the file must be there.
    Read,
    /// For writing; the file is created, or cut to nothing.
    Write,
    /// For reading and writing; the file must be there.
    Update,
    /// For writing at its end; the file is created where it is absent.
    Append,
    /// For writing at its end; the file must be there.
    AppendOld,
    /// For writing; the file must be absent and is created.
    Create,
}

/// A started process.
#[derive(Clone, Copy, PartialEq, Eq)]
pub struct Pid {
    /// As the world numbers it.
    pub number: u32,
}

/// How a process ended.
#[derive(Clone, Copy, PartialEq, Eq)]
pub enum Ended {
    /// By itself, with this status.
    Exited(u8),
    /// By a signal from 1 to 127.
    Killed(u8),
}

/// Why a call has no answer.
#[derive(Clone, Copy, Debug, PartialEq, Eq)]
pub enum Fault {
    /// The outside refused it. It comes only where the count of faults rose.
    Failed,
    /// There was no memory for it.
    NoMemory,
}

/// Why a process wasn't started.
#[derive(Clone, Copy, Debug, PartialEq, Eq)]
pub enum StartFault {
    /// There is no such file.
    NotFound,
    /// The file can't be run.
    NotStartable,
    /// The outside refused the call. It comes only where the count of faults rose.
    Failed,
    /// There was no memory for it.
    NoMemory,
}

impl From<NoMemory> for Fault {
    ghost from_gives = { λ _ e. e ≡ fault_no_memory };

    fn from(_: NoMemory) -> Self {
        Fault::NoMemory
    }
}

impl From<NoMemory> for StartFault {
    ghost from_gives = { λ _ e. e ≡ start_no_memory };

    fn from(_: NoMemory) -> Self {
        StartFault::NoMemory
    }
}

/// The greatest number of bytes of one read.
pub const MAX_PIECE: usize = 4096;

/// A call of a world, with its arguments and its answer, which is never `NoMemory`.
#[derive(Drop)]
pub enum Event {
    /// A process is started, which finds `ends` at its numbers 0 to 2.
    Start {
        words: Words,
        env: Env,
        dir: Word,
        ends: [Option<Handle>; 3],
        answer: Result<Pid, StartFault>,
    },
    /// A started process is waited for.
    Wait {
        pid: Pid,
        answer: Result<Ended, Fault>,
    },
    /// The file that `path` means from `dir` is opened.
    Opened {
        dir: Word,
        path: Word,
        mode: Mode,
        answer: Result<Handle, Fault>,
    },
    /// A pipe is made.
    Pipe {
        answer: Result<PipeEnds, Fault>,
    },
    /// A handle is made from which the bytes can be read.
    Feed {
        bytes: Bytes,
        answer: Result<Handle, Fault>,
    },
    /// A piece is read; one of no bytes is the end.
    Read {
        handle: Handle,
        answer: Result<Bytes, Fault>,
    },
    /// All of the bytes are written.
    Write {
        handle: Handle,
        bytes: Bytes,
        answer: Result<(), Fault>,
    },
    /// A handle is closed; that can't fail.
    Close {
        handle: Handle,
    },
    /// The directory that `path` means from `dir` is named.
    Enter {
        dir: Word,
        path: Word,
        answer: Result<Word, Fault>,
    },
}
