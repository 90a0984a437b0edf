//! elfamily [--tree] N words..
ghost use Rattle.std.specs.Prelude.{◌≡◌, ◌⊎◌, IfOk, IfErr, IsErrOf, option_copied};
ghost use Rattle.el_family.specs.Asked.{asked};
ghost use Rattle.el_family.specs.Ends.{EndsBy, IsToldOf, told_text, end_of, finish_of, complaint_of};
ghost use Rattle.el_family.specs.Reports.{GrowsBeyond};

use crate::asked::{Asked, Form, read_asked};
use crate::family::{Family, FamilyFault};
use crate::growing::whole_family;
use crate::telling::lines_of;
use crate::tree::tree_of;
use el_words::{Bytes, NoMemory, Words};
use el_world::Finish;
use std::alloc::Global;

// The words don't fit its use, or the family is too large.
const WRONG_USE: u8 = 100;

/// How elfamily ends.
#[derive(Drop)]
pub enum End {
    /// This is to be written to standard output.
    Told(Bytes),
    /// The family would have too many members.
    TooMany,
    /// The words don't fit its use.
    WrongUse,
    /// There was no memory to go on.
    NoMemory,
}

/// Runs the family that the words behind the program's name ask for, and tells of it.
pub fn elfamily(alloc: Global, words: Words) -> End
    ensures { EndsBy (asked words) result }
{
    match read_asked(words) {
        Some(asked) => ended(told(alloc, asked)),
        None => End::WrongUse,
    }
}

// What is told of the family that is asked for.
fn told(alloc: Global, asked: Asked) -> Result<Bytes, FamilyFault>
    ensures ok { IfOk result (λ bytes. IsToldOf asked.form asked.words asked.budget bytes) }
    ensures full { IsErrOf result FamilyFault.Full → GrowsBeyond asked.words asked.budget }
    ensures only { IfErr result (λ fault. (fault ≡ FamilyFault.Full) ⊎ (fault ≡ FamilyFault.NoMemory)) }
{
    let family = whole_family(alloc, asked.words, asked.budget)?;
    Ok(text_of(alloc, asked.form, &family)?)
}

fn text_of(alloc: Global, form: Form, family: &Family) -> Result<Bytes, NoMemory>
    ensures { IfOk result (λ text. text ≡ told_text form family.now) }
{
    match form {
        Form::Lines => lines_of(alloc, family),
        Form::Tree => tree_of(alloc, family),
    }
}

// The end where this is told. A whole family is refused for want of room or of memory alone.
fn ended(told: Result<Bytes, FamilyFault>) -> End
    ensures { result ≡ end_of told }
{
    match told {
        Ok(bytes) => End::Told(bytes),
        Err(FamilyFault::Full) => End::TooMany,
        Err(_) => End::NoMemory,
    }
}

/// How the process ends.
pub fn finish_of(end: &End) -> Finish
    ensures { result ≡ finish_of end.now }
{
    match end {
        End::Told(_) => Finish::Status(0),
        End::TooMany | End::WrongUse => Finish::Status(WRONG_USE),
        End::NoMemory => Finish::NoMemory,
    }
}

/// What standard error is told of what is refused, in a line behind the program's name.
#[tactic(auto, unfolding(crate::specs::Ends::too_many_text, crate::specs::Ends::wrong_use_text))]
pub fn complaint_of(end: &End) -> Option<&'static str>
    ensures { option_copied result ≡ complaint_of end.now }
{
    match end {
        End::TooMany => Some("too many processes"),
        End::WrongUse => Some("wrong usage"),
        End::Told(_) | End::NoMemory => None,
    }
}
