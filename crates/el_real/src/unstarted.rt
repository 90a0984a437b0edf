//! Why nothing was started.
ghost use Rattle.std.specs.Prelude.{◌≡◌};
ghost use Rattle.el_real.specs.Starts.{command_fault_of, answer_to_start};
ghost use Rattle.el_real.specs.declared.unstarted.Unstarted.TheVariants.{Lacking as lacking};

use crate::lack::Lack;
use el_world::StartFault;

// The system makes no process for this one, as behind a filter of its calls.
const EPERM: i32 = 1;

// There is no such file.
const ENOENT: i32 = 2;

// The limit leaves no number for a descriptor of the child.
const EBADF: i32 = 9;

// There is no process to be had.
const EAGAIN: i32 = 11;

// There is no descriptor to be had, for any process or for this one.
const ENFILE: i32 = 23;

const EMFILE: i32 = 24;

/// What stands in the way of a start.
#[derive(Clone, Copy)]
pub enum Unstarted {
    /// Something that it needs can't be had.
    Lacking(Lack),
    /// Its directory can't be entered.
    NoDirectory(Lack),
    /// The system doesn't run its command.
    Refused(Lack),
}

impl From<Lack> for Unstarted {
    ghost from_gives = { λ lack unstarted. unstarted ≡ lacking lack };

    fn from(lack: Lack) -> Self {
        Unstarted::Lacking(lack)
    }
}

impl Unstarted {
    /// What the start answers: whose fault it is.
    pub fn fault(self) -> StartFault
        ensures { result ≡ answer_to_start self }
    {
        match self {
            Unstarted::Lacking(lack) | Unstarted::NoDirectory(lack) => StartFault::from(lack),
            Unstarted::Refused(lack) => command_fault(lack),
        }
    }
}

/// No such file, or a missing `#!` interpreter, isn't found; no process or descriptor to be had is a
/// failure; all else is a file that can't be run.
pub fn command_fault(lack: Lack) -> StartFault
    ensures { result ≡ command_fault_of lack }
{
    match lack {
        Lack::Refused(number) => match number {
            ENOENT => StartFault::NotFound,
            EPERM | EBADF | EAGAIN | ENFILE | EMFILE => StartFault::Failed,
            _ => StartFault::NotStartable,
        },
        _ => StartFault::from(lack),
    }
}
