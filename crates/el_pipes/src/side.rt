//! The sides of a pipe.
ghost use Rattle.std.specs.Prelude.{◌≡◌, ◌<◌};
ghost use Rattle.el_pipes.specs.Pipes.{number_at, end_at, other_side};

use el_room::{Handle, PipeEnds};

/// A side of a pipe, as who has it reads from it or writes to it.
#[derive(Clone, Copy, PartialEq, Eq)]
pub enum Side {
    /// It is read from.
    Input,
    /// It is written to.
    Output,
}

impl Side {
    /// The number at which a process has such an end.
    pub(crate) fn number(self) -> usize
        ensures number { result ≡ number_at self }
        ensures range { result < 2 }
    {
        match self {
            Side::Input => 0,
            Side::Output => 1,
        }
    }

    /// The end of a pipe that is on this side.
    pub(crate) fn end(self, ends: PipeEnds) -> Handle
        ensures { result ≡ end_at self ends }
    {
        match self {
            Side::Input => ends.reader,
            Side::Output => ends.writer,
        }
    }

    /// The side of who is at the other end.
    pub(crate) fn other(self) -> Side
        ensures { result ≡ other_side self }
    {
        match self {
            Side::Input => Side::Output,
            Side::Output => Side::Input,
        }
    }
}
