//! What eltrace answers to a script and the text of a trace.
ghost use Rattle.el_room.specs.Vocabulary.{decimal, are_lawful, events_of};
ghost use Rattle.std.specs.Prelude.{◌≡◌, ◌++◌, [], ◌∷◌, true, IfOk, IfErr, OnOk};
ghost use Rattle.el_tree.specs.Trees.{Tree};
ghost use Rattle.el_check.specs.declared.params.Params.TheVariants.{Leave as leave};
ghost use Rattle.el_check.specs.Scripts.{IsAcceptedScript};
ghost use Rattle.el_trace.specs.Checked.{IsRefused};
ghost use Rattle.el_trace.specs.Answered.{line_of, status_of, bad_script, bad_trace, Shows, IsAnswered, IsToldOf, IsToldWithout};

use crate::checking::check_run;
use crate::verdict::{RunFault, Verdict};
use el_check::{Params, check};
use el_env::{Env, Positionals};
use el_record::{Trace, TraceFault, parse_trace};
use el_words::{Bytes, NoMemory, Word, Words, put_u64};
use std::alloc::Global;

// The statuses of a run, of what is no run, and of a script or a text that is refused.
const RUN: u8 = 0;

const NO_RUN: u8 = 1;

const REFUSED: u8 = 100;

/// A line with its newline, and a status.
#[derive(Drop)]
pub struct Shown {
    pub line: Bytes,
    pub status: u8,
}

/// What is said of the trace of this text as a run of `script`, without arguments and variables, from the
/// directory `/` on and with the greatest budget: `yes` with status 0, and `differs at N` or `unlawful at N` with 1.
/// Where `check` refuses the script it is `eltrace: bad script`, and else, where `parse_trace` refuses the text,
/// `eltrace: bad trace`, both with 100. The only error is want of memory.
pub fn trace_answer(alloc: Global, script: &[u8], trace: &[u8]) -> Result<Shown, NoMemory>
    ensures { IfOk result (IsAnswered script.now trace.now) }
{
    match parse_trace(alloc, trace) {
        Ok(trace) => told_of(alloc, script, &trace),
        Err(TraceFault::BadTrace { .. }) => told_without(alloc, script),
        Err(TraceFault::NoMemory) => Err(NoMemory),
    }
}

// What is said of a trace.
fn told_of(alloc: Global, script: &[u8], trace: &Trace) -> Result<Shown, NoMemory>
    requires { are_lawful (events_of trace.now.log) ≡ true }
    ensures { IfOk result (IsToldOf script.now (events_of trace.now.log) trace.now.end) }
{
    let start = Positionals {
        zero: Word::new(alloc),
        args: Words::new(alloc),
    };
    let env = Env::new(alloc);
    let dir = Word::of(alloc, b"/")?;
    match check_run(
        alloc,
        Params::Leave,
        script,
        &start,
        &env,
        &dir,
        u64::MAX,
        trace,
    ) {
        Ok(verdict) => verdict_shown(alloc, verdict),
        Err(RunFault::Script { .. }) => bad_script_shown(alloc),
        Err(RunFault::NoMemory) => Err(NoMemory),
    }
}

// What is said where the text is no trace's.
fn told_without(alloc: Global, script: &[u8]) -> Result<Shown, NoMemory>
    ensures { IfOk result (IsToldWithout script.now) }
{
    match accepted(alloc, script) {
        Ok(()) => bad_trace_shown(alloc),
        Err(RunFault::Script { .. }) => bad_script_shown(alloc),
        Err(RunFault::NoMemory) => Err(NoMemory),
    }
}

// Whether the script is accepted; the error is why it isn't.
fn accepted(alloc: Global, script: &[u8]) -> Result<(), RunFault>
    ensures ok { OnOk result ((tree : Tree) × IsAcceptedScript leave script.now tree) }
    ensures err { IfErr result (IsRefused leave script.now) }
{
    check(alloc, Params::Leave, script)?;
    Ok(())
}

fn verdict_shown(alloc: Global, verdict: Verdict) -> Result<Shown, NoMemory>
    ensures { IfOk result (λ shown. Shows shown (line_of verdict) (status_of verdict)) }
{
    match verdict {
        Verdict::Yes => yes_shown(alloc),
        Verdict::Differs { at } => differs_shown(alloc, at),
        Verdict::Unlawful { at } => unlawful_shown(alloc, at),
    }
}

#[tactic(auto, unfolding(crate::specs::Answered::line_of))]
fn yes_shown(alloc: Global) -> Result<Shown, NoMemory>
    ensures { IfOk result (λ shown. Shows shown (line_of Verdict.Yes) (status_of Verdict.Yes)) }
{
    Ok(Shown {
        line: Bytes::from_slice(alloc, b"yes\n")?,
        status: RUN,
    })
}

#[tactic(auto, unfolding(crate::specs::Answered::line_of))]
fn differs_shown(alloc: Global, at: usize) -> Result<Shown, NoMemory>
    ensures { IfOk result (λ shown. Shows shown (line_of (Verdict.Differs at)) (status_of (Verdict.Differs at))) }
{
    numbered(alloc, b"differs at ", at)
}

#[tactic(auto, unfolding(crate::specs::Answered::line_of))]
fn unlawful_shown(alloc: Global, at: usize) -> Result<Shown, NoMemory>
    ensures { IfOk result (λ shown. Shows shown (line_of (Verdict.Unlawful at)) (status_of (Verdict.Unlawful at))) }
{
    numbered(alloc, b"unlawful at ", at)
}

// A text and a number, of what is no run.
fn numbered(alloc: Global, text: &[u8], at: usize) -> Result<Shown, NoMemory>
    ensures { IfOk result (λ shown. Shows shown (text.now ++ decimal at ++ 10 ∷ []) 1) }
{
    let number = put_u64(alloc, at as u64)?;
    let mut line = Bytes::from_slice(alloc, text)?;
    line.append(number.as_bytes())?;
    line.push(b'\n')?;
    Ok(Shown {
        line,
        status: NO_RUN,
    })
}

#[tactic(auto, unfolding(crate::specs::Answered::bad_script))]
fn bad_script_shown(alloc: Global) -> Result<Shown, NoMemory>
    ensures { IfOk result (λ shown. Shows shown bad_script 100) }
{
    Ok(Shown {
        line: Bytes::from_slice(alloc, b"eltrace: bad script\n")?,
        status: REFUSED,
    })
}

/// What is said of a text that is no trace's.
#[tactic(auto, unfolding(crate::specs::Answered::bad_trace))]
pub fn bad_trace_shown(alloc: Global) -> Result<Shown, NoMemory>
    ensures { IfOk result (λ shown. Shows shown bad_trace 100) }
{
    Ok(Shown {
        line: Bytes::from_slice(alloc, b"eltrace: bad trace\n")?,
        status: REFUSED,
    })
}
