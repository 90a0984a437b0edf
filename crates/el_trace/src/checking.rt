//! Checks a recorded run against its script.
ghost use Rattle.el_room.specs.Vocabulary.{Decides, are_lawful, events_of, Task, found_in, made};
ghost use Rattle.std.specs.Prelude.{◌≡◌, ℕ, true, length, IfOk, IfErr};
ghost use Rattle.el_machine.specs.Flat.{flat_run};
ghost use Rattle.el_trace.specs.NewHandles.{first_number, keep_numbers};
ghost use Rattle.el_trace.specs.Checked.{begun_state, IsJudged, IsRefused};
ghost use Rattle.el_trace.specs.Replayed.{IsFirst, IsReplayed, end_of};
ghost use Rattle.el_trace.specs.Runs.{IsVerdict};

use crate::agreeing::common_length;
use crate::new_handles::first_breach;
use crate::replay::Replay;
use crate::vector::script_words;
use crate::verdict::{RunFault, Verdict};
use el_check::{Params, check};
use el_env::{Env, Positionals};
use el_machine::run;
use el_proc::{Fds, Kids, Proc};
use el_record::{RunEnd, Trace};
use el_words::{NoMemory, Word, Words};
use el_world::{Finish, Log};
use std::alloc::Global;

/// Whether `trace` is a run of `script` from the variables `env`, the directory `dir` and the process's own
/// descriptors on, with `budget` units.
///
/// The script is run over a world that answers as the trace does, and what it does is compared with the trace. It
/// is checked as `params` says; under `Params::Subst` the positional parameters `start` are put in its words, and
/// otherwise they aren't used. No frame is pushed: `env` is what the script's words are run with.
///
/// The answers in the trace must be lawful: none is want of memory, and signals and pieces are in their ranges. The
/// error is the script's first fault, exactly where `check` refuses the script; `NoMemory` may come at any trace.
pub fn check_run(
    alloc: Global,
    params: Params,
    script: &[u8],
    start: &Positionals,
    env: &Env,
    dir: &Word,
    budget: u64,
    trace: &Trace,
) -> Result<Verdict, RunFault>
    requires { are_lawful (events_of trace.now.log) ≡ true }
    ensures ok { IfOk result (IsJudged params script.now start.now.zero start.now.args env.now dir.now budget (events_of trace.now.log) trace.now.end) }
    ensures err { IfErr result (IsRefused params script.now) }
{
    check(alloc, params, script)?;
    if let Some(at) = first_breach(&trace.log) {
        return Ok(Verdict::Unlawful { at });
    }
    let words = script_words(alloc, params, script, start)?;
    Ok(judged(alloc, words, env, dir, budget, trace)?)
}

// What is said of a trace beside the run of these words on its answers.
fn judged(
    alloc: Global,
    words: Words,
    env: &Env,
    dir: &Word,
    budget: u64,
    trace: &Trace,
) -> Result<Verdict, NoMemory>
    requires numbers { keep_numbers first_number (events_of trace.now.log) ≡ true }
    requires lawful { are_lawful (events_of trace.now.log) ≡ true }
    ensures { IfOk result (IsVerdict (made (flat_run words (begun_state env.now dir.now)) budget (found_in (events_of trace.now.log))) (events_of trace.now.log) trace.now.end) }
{
    let (finish, log) = replayed(alloc, words, env, dir, budget, &trace.log)?;
    compared(finish, &log, trace)
}

// How the run of these words ends over a world that replays the recorded events, and what it does.
fn replayed(
    alloc: Global,
    words: Words,
    env: &Env,
    dir: &Word,
    budget: u64,
    recorded: &Log,
) -> Result<(Finish, Log), NoMemory>
    requires numbers { keep_numbers first_number (events_of recorded.now) ≡ true }
    requires lawful { are_lawful (events_of recorded.now) ≡ true }
    ensures { IfOk result (λ run. IsReplayed (flat_run words (begun_state env.now dir.now)) budget (events_of recorded.now) (events_of run.1) run.0) }
{
    let mut proc = first_process(alloc, words, env, dir, budget)?;
    let mut world = Replay::new(alloc, recorded);
    let finish = run(alloc, &mut proc, &mut world);
    Ok((finish, world.into_log()))
}

// A process at its start, with these words.
fn first_process(
    alloc: Global,
    words: Words,
    env: &Env,
    dir: &Word,
    budget: u64,
) -> Result<Proc, NoMemory>
    ensures { IfOk result (IsFirst words env.now dir.now budget) }
{
    Ok(Proc {
        words,
        env: env.copy()?,
        fds: Fds::standard(),
        dir: dir.copy()?,
        kids: Kids::new(alloc),
        budget,
    })
}

// What is said of a trace beside what was done over a world that replays it.
fn compared(finish: Finish, own: &Log, trace: &Trace) -> Result<Verdict, NoMemory>
    requires { keep_numbers first_number (events_of trace.now.log) ≡ true }
    ensures { IfOk result (λ verdict. (task : Task ⊥) (units : ℕ) → IsReplayed task units (events_of trace.now.log) (events_of own.now) finish
        → IsVerdict (made task units (found_in (events_of trace.now.log))) (events_of trace.now.log) trace.now.end verdict) }
{
    let Some(end) = end_of(finish) else {
        return Err(NoMemory);
    };
    let at = common_length(&trace.log, own)?;
    if is_same(at, end, own, trace) {
        Ok(Verdict::Yes)
    } else {
        Ok(Verdict::Differs { at })
    }
}

// Whether the logs agree to both their ends, and the run ended as the trace does.
fn is_same(at: usize, end: RunEnd, own: &Log, trace: &Trace) -> bool
    ensures { Decides result ((at ≡ length (events_of trace.now.log)) × (at ≡ length (events_of own.now)) × (end ≡ trace.now.end)) }
{
    at == trace.log.len() && at == own.len() && end == trace.end
}

// How a run ended; None where it had no memory.
fn end_of(finish: Finish) -> Option<RunEnd>
    ensures { result ≡ end_of finish }
{
    match finish {
        Finish::Status(code) => Some(RunEnd::Status(code)),
        Finish::Spent => Some(RunEnd::Spent),
        Finish::NoMemory => None,
    }
}
