//! What comes after a program.
ghost use Rattle.std.specs.Prelude.{◌≡◌};
ghost use Rattle.el_proc.specs.Processes.{way_of};

use el_world::Finish;

/// What comes after a program.
#[derive(Clone, Copy, PartialEq, Eq)]
pub enum Next {
    /// What is left of the words goes on.
    Go,
    /// The process ends with this status.
    End(u8),
    /// A unit was due, and none was left.
    Spent,
    /// There was no memory to go on.
    NoMemory,
}

/// The answer of a program that came out so.
pub fn next_of(way: Result<(), Finish>) -> Next
    ensures { way_of result ≡ way }
{
    match way {
        Ok(()) => Next::Go,
        Err(Finish::Status(code)) => Next::End(code),
        Err(Finish::Spent) => Next::Spent,
        Err(Finish::NoMemory) => Next::NoMemory,
    }
}
