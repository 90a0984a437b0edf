//! How a process ends.
ghost use Rattle.std.specs.Prelude.{◌≡◌, option_copied};
ghost use Rattle.el_real.specs.Statuses.{status_of, complaint_of};

use crate::lack::Lack;
use crate::reason::{Call, reason_of};
use bstr::ByteSlice;
use el_world::Finish;
use std::alloc::{Alloc, Global};
use std::io::Eprint;
use std::process::ExitCode;

// Where the budget was spent.
const SPENT: u8 = 109;

// Where memory was wanting.
const NO_MEMORY: u8 = 110;

// Where the system doesn't tell what the process was given.
const FAILED: u8 = 111;

/// Ends the process of this program as its run ended.
pub fn end(rt: &impl Eprint, program: &str, finish: Finish) -> ExitCode {
    if let Some(complaint) = complaint_of(finish) {
        let _ = eprintln!(rt; "{program}: {complaint}");
    }
    ExitCode::from(status_of(finish))
}

/// Ends the process of this program, which couldn't collect what it was given.
pub fn end_without(rt: &(impl Eprint + Alloc<A = Global>), program: &str, lack: Lack) -> ExitCode {
    if lack == Lack::NoMemory {
        return end(rt, program, Finish::NoMemory);
    }
    let reason = reason_of(rt.alloc(), Call::Directory, b"", lack);
    let reason = reason.as_bytes().as_bstr();
    let _ = eprintln!(rt; "{reason}{program}: system call failed");
    ExitCode::from(FAILED)
}

/// The status of a process.
pub fn status_of(finish: Finish) -> u8
    ensures { result ≡ status_of finish }
{
    match finish {
        Finish::Status(code) => code,
        Finish::Spent => SPENT,
        Finish::NoMemory => NO_MEMORY,
    }
}

/// What standard error is told, so that these two aren't taken for a command's own.
#[tactic(auto, unfolding(crate::specs::Statuses::spent_text, crate::specs::Statuses::no_memory_text))]
pub fn complaint_of(finish: Finish) -> Option<&'static str>
    ensures { option_copied result ≡ complaint_of finish }
{
    match finish {
        Finish::Status(_) => None,
        Finish::Spent => Some("budget spent"),
        Finish::NoMemory => Some("no memory"),
    }
}
