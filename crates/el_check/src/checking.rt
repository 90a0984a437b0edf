//! The checker: the tree of a script, or its first fault.
ghost use Rattle.std.specs.Prelude.{◌≡◌, [], None, Some, IfOk, IfErr, OnOk};
ghost use Rattle.el_reader.specs.Inspections.{first_scope as scope_of};
ghost use Rattle.el_check.specs.Scripts.{first_marks, IsAcceptedScript};
ghost use Rattle.el_check.specs.Checks.{IsCheckFault, checked, checked_in, IsAnswer};
ghost use Rattle.el_check.specs.Surveys.{HasSurveyed, GoesOn, EndsAs, IsVerdict, IsAcceptedAs};

use crate::kind::CheckFault;
use crate::params::Params;
use crate::survey::{Survey, Surveyed};
use el_lex::{Lexer, Tokens};
use el_reader::{FixedPlaces, Inspection, Misread, Reader, TokenReader};
use el_tree::Tree;
use el_words::NoMemory;
use std::alloc::Global;

/// The tree with which `script` is accepted, or its first fault: of lexing, else of its braces, else of its tree.
///
/// The kind of a fault says when it comes; `CheckKind::NoMemory` may come at any script. A script is accepted where
/// no values that are put in its words change which of its programs run, and with which blocks and how many words at each
/// place. A command's own first word may be such a value: where it names a program, that one runs on the command's words.
/// The rules are this project's own.
pub fn check(alloc: Global, params: Params, script: &[u8]) -> Result<Tree, CheckFault>
    ensures ok { IfOk result (IsAcceptedScript params script.now) }
    ensures fault { IfErr result (IsCheckFault params script.now) }
    ensures exact { IsAnswer (checked params script.now) result }
{
    read_script(alloc, places_of(params), script)
}

/// Whether `script` is accepted, or its first fault: of lexing, else of its braces, else of its tree, as `check` finds it.
///
/// The kind of a fault says when it comes; `CheckKind::NoMemory` may come at any script. No tree is made, so that it takes
/// less time and memory than `check`.
pub fn first_fault(alloc: Global, params: Params, script: &[u8]) -> Result<(), CheckFault>
    ensures ok { OnOk result (IsAcceptedAs params script.now) }
    ensures fault { IfErr result (IsCheckFault params script.now) }
    ensures exact { IsVerdict (checked params script.now) result }
{
    inspect_script(alloc, places_of(params), script)
}

/// The tree of `script`, or its first fault, where the words at fixed places aren't tested: what a formatter needs.
///
/// The kinds of faults are those of `check` but for `CheckKind::ManyAfterValue`.
pub fn parse_script(alloc: Global, script: &[u8]) -> Result<Tree, CheckFault>
    ensures { IsAnswer (checked_in None script.now) result }
{
    read_script(alloc, FixedPlaces::Untested, script)
}

// The first fault of `script`, if it has one, where the words at fixed places are tested so.
fn inspect_script(alloc: Global, places: FixedPlaces, script: &[u8]) -> Result<(), CheckFault>
    ensures { IsVerdict (checked_in (scope_of places) script.now) result }
{
    let script = survey::<Inspection>(alloc, places, script)?;
    match script.reader.end() {
        Some(found) => Err(CheckFault::from(Misread::new(found, 0, script.last_line))),
        None => Ok(()),
    }
}

// The reader that has read all of `script`, or the first fault before its end, where the words at fixed places are tested so.
fn survey<R: TokenReader + Drop>(
    alloc: Global,
    places: FixedPlaces,
    script: &[u8],
) -> Result<Surveyed<R>, CheckFault>
    ensures { EndsAs R.has_read R.depth (scope_of places) (checked_in (scope_of places) script.now) result }
{
    let mut lexer = Lexer::new(script)?;
    let mut survey = Survey::new(alloc, places)?;
    loop {
        let part = lexer.next_part(alloc)?;
        if part.is_empty() {
            return survey.end();
        }
        survey_part(alloc, &mut survey, part)?;
    }
}

// The next tokens are read. After an error, for want of memory, nothing is known of the script any more.
fn survey_part<R: TokenReader + Drop>(
    alloc: Global,
    survey: &mut Survey<R>,
    part: Tokens,
) -> Result<(), NoMemory>
    requires { HasSurveyed R.has_read R.depth survey.old }
    ensures { OnOk result (GoesOn R.has_read R.depth survey.old part survey.new []) }
{
    for token in part {
        survey.put(alloc, token)?;
    }
    Ok(())
}

// How the words at fixed places are tested by the first marks.
fn places_of(params: Params) -> FixedPlaces
    ensures { scope_of result ≡ Some (first_marks params) }
{
    FixedPlaces::Tested {
        positionals: matches!(params, Params::Subst(_)),
    }
}

// The tree of `script`, or its first fault, where the words at fixed places are tested so.
fn read_script(alloc: Global, places: FixedPlaces, script: &[u8]) -> Result<Tree, CheckFault>
    ensures { IsAnswer (checked_in (scope_of places) script.now) result }
{
    let script = survey::<Reader>(alloc, places, script)?;
    match script.reader.end(alloc, script.last_line) {
        Ok(tree) => Ok(tree),
        Err(misread) => Err(CheckFault::from(misread)),
    }
}
