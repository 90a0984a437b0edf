//! Starting children, and what comes of it.
ghost use Rattle.std.specs.Prelude.{◌≡◌, true, IfOk, IfErr};
ghost use Rattle.el_words.specs.Prog.{name_text};
ghost use Rattle.el_world.specs.World.{HasCause, IsWaitStatus};
ghost use Rattle.el_world.specs.Handles.{are_usable};
ghost use Rattle.el_world.specs.Runs.{Done, call_result, ok_value};
ghost use Rattle.el_world.specs.Follows.{Follows};
ghost use Rattle.el_proc.specs.Processes.{state_of};
ghost use Rattle.el_proc.specs.Troubles.{IsHeard};
ghost use Rattle.el_proc.specs.Children.{first_word, code_of, started_by, starting, running_pid, unstarted_code, failing, waited_for, running, child};

use crate::descriptors::Fds;
use crate::message::tell;
use crate::process::Proc;
use crate::trouble::Trouble;
use el_env::Env;
use el_words::{NoMemory, Prog, Word, Words};
use el_world::{Ended, Fault, Finish, Handle, Pid, StartFault, World, call};
use std::alloc::Global;

/// A code above this one tells of the signal that killed a process.
pub const KILLED: u8 = 128;

/// What came of starting a child.
#[derive(Clone, Copy, PartialEq, Eq)]
pub enum Started {
    /// There were no words, and nothing was started.
    Empty,
    /// The child runs.
    Running(Pid),
    /// There is no such command.
    NotFound,
    /// The command can't be run.
    NotStartable,
}

impl Started {
    /// The process that runs, if one does.
    pub fn pid(self) -> Option<Pid>
        ensures { result ≡ running_pid self }
    {
        match self {
            Started::Running(pid) => Some(pid),
            Started::Empty | Started::NotFound | Started::NotStartable => None,
        }
    }
}

/// Runs a child with the process's own variables and what its numbers 0 to 2 hold, as `run_child` does
/// under the program's name. One that failed ends the process with 111.
#[tactic(auto, using(el_world::proofs::Follows::stops, crate::proofs::Usable::usable), unfolding(crate::specs::Children::child_with))]
pub fn run_own_child<W: World>(
    alloc: Global,
    proc: &Proc,
    program: Prog,
    words: &Words,
    world: &mut W,
) -> Result<Ended, Finish>
    requires { are_usable (W.seen world.old).held proc.now.fds ≡ true }
    ensures run { Follows (W.seen world.old) (W.seen world.new) (child (state_of proc.now) (name_text program) words.now) proc.now.budget result (λ ended. ended) (state_of proc.now) proc.now.budget }
    ensures held { (W.seen world.new).held ≡ (W.seen world.old).held }
    ensures usable { are_usable (W.seen world.new).held proc.now.fds ≡ true }
    ensures signal { IfOk result IsWaitStatus }
{
    let streams = proc.fds.streams();
    match run_child(
        alloc,
        proc,
        words,
        &proc.env,
        &streams,
        program.name(),
        world,
    ) {
        Ok(ended) => Ok(ended),
        Err(Fault::Failed) => Err(Finish::Status(Trouble::Failed.status())),
        Err(Fault::NoMemory) => Err(Finish::NoMemory),
    }
}

/// Starts a child and waits for it. Without words it makes no call and counts as ended with 0. A
/// command that isn't found or can't be started counts as ended with 127 or 126, behind a message with
/// its own name. A start or wait that fails is complained of under `name` and answered as `Failed`.
#[tactic(auto, using(el_world::proofs::Runs::acts), unfolding(crate::specs::Children::running))]
pub fn run_child<W: World>(
    alloc: Global,
    proc: &Proc,
    words: &Words,
    env: &Env,
    streams: &[Option<Handle>; 3],
    name: &[u8],
    world: &mut W,
) -> Result<Ended, Fault>
    requires handles { are_usable (W.seen world.old).held proc.now.fds ≡ true }
    requires streams { are_usable (W.seen world.old).held streams.now ≡ true }
    ensures run { Done (W.seen world.old) (W.seen world.new) (running (state_of proc.now) name.now words.now env.now streams.now) (call_result result) }
    ensures cause { HasCause (W.seen world.old).faults (W.seen world.new).faults result Fault.Failed }
    ensures held { (W.seen world.new).held ≡ (W.seen world.old).held }
    ensures signal { IfOk result IsWaitStatus }
{
    let started = match start_child(words, env, &proc.dir, streams, world) {
        Ok(started) => started,
        Err(Fault::Failed) => return fail(alloc, &proc.fds, name, world),
        Err(Fault::NoMemory) => return Err(Fault::NoMemory),
    };
    match started.pid() {
        Some(pid) => wait_for(alloc, &proc.fds, name, pid, world),
        None => Ok(Ended::Exited(tell_unstarted(alloc, &proc.fds, words, started, world)?)),
    }
}

/// Starts a child; `Empty`, without a call, exactly where there are no words. It writes no message. `Failed`
/// comes only where a call of the world failed.
#[tactic(auto, using(el_world::proofs::Runs::acts), unfolding(crate::specs::Children::starting))]
pub fn start_child<W: World>(
    words: &Words,
    env: &Env,
    dir: &Word,
    streams: &[Option<Handle>; 3],
    world: &mut W,
) -> Result<Started, Fault>
    requires { are_usable (W.seen world.old).held streams.now ≡ true }
    ensures run { Done (W.seen world.old) (W.seen world.new) (starting words.now env.now dir.now streams.now) (call_result result) }
    ensures cause { HasCause (W.seen world.old).faults (W.seen world.new).faults result Fault.Failed }
    ensures held { (W.seen world.new).held ≡ (W.seen world.old).held }
{
    if words.is_empty() {
        return Ok(Started::Empty);
    }
    started_by(call::start(words, env, dir, streams, world)?)
}

// What comes of a start.
fn started_by(answer: Result<Pid, StartFault>) -> Result<Started, Fault>
    ensures { result ≡ started_by answer }
{
    match answer {
        Ok(pid) => Ok(Started::Running(pid)),
        Err(StartFault::NotFound) => Ok(Started::NotFound),
        Err(StartFault::NotStartable) => Ok(Started::NotStartable),
        Err(StartFault::Failed | StartFault::NoMemory) => Err(Fault::Failed),
    }
}

/// Tells of a child that doesn't run: writes the message of a command that isn't found or can't be started,
/// with its own name. Answers the code with which the child counts as ended: 127 or 126, or 0 where there
/// were no words. Of one that runs nothing is told, and the answer is 0.
#[tactic(auto, using(el_world::proofs::Runs::acts), unfolding(crate::specs::Children::unstarted_code))]
pub fn tell_unstarted<W: World>(
    alloc: Global,
    fds: &Fds,
    words: &Words,
    started: Started,
    world: &mut W,
) -> Result<u8, NoMemory>
    requires { are_usable (W.seen world.old).held fds.now ≡ true }
    ensures run { Done (W.seen world.old) (W.seen world.new) (unstarted_code fds.now (first_word words.now) started) (ok_value result) }
    ensures memory { IfErr result (λ _. IsHeard fds.now) }
    ensures held { (W.seen world.new).held ≡ (W.seen world.old).held }
{
    let trouble = match started {
        Started::Empty | Started::Running(_) => return Ok(0),
        Started::NotFound => Trouble::NotFound,
        Started::NotStartable => Trouble::NotStartable,
    };
    tell(alloc, fds, first_word(words), trouble, None, world)?;
    Ok(trouble.status())
}

#[tactic(auto, using(el_world::proofs::Runs::acts), unfolding(crate::specs::Children::waited_for))]
fn wait_for<W: World>(
    alloc: Global,
    fds: &Fds,
    name: &[u8],
    pid: Pid,
    world: &mut W,
) -> Result<Ended, Fault>
    requires { are_usable (W.seen world.old).held fds.now ≡ true }
    ensures run { Done (W.seen world.old) (W.seen world.new) (waited_for fds.now name.now pid) (call_result result) }
    ensures held { (W.seen world.new).held ≡ (W.seen world.old).held }
    ensures signal { IfOk result IsWaitStatus }
{
    match call::wait(pid, world)? {
        Ok(ended) => Ok(ended),
        Err(_) => fail(alloc, fds, name, world),
    }
}

// A call that failed: its message, under this name.
#[tactic(auto, using(el_world::proofs::Runs::acts), unfolding(crate::specs::Children::failing))]
fn fail<W: World>(alloc: Global, fds: &Fds, name: &[u8], world: &mut W) -> Result<Ended, Fault>
    requires { are_usable (W.seen world.old).held fds.now ≡ true }
    ensures run { Done (W.seen world.old) (W.seen world.new) (failing fds.now name.now) (call_result result) }
    ensures held { (W.seen world.new).held ≡ (W.seen world.old).held }
    ensures signal { IfOk result IsWaitStatus }
{
    tell(alloc, fds, name, Trouble::Failed, None, world)?;
    Err(Fault::Failed)
}

/// The word that names a command, or the empty word where there is none.
pub fn first_word(words: &Words) -> &[u8]
    ensures { result.now ≡ first_word words.now }
{
    words.get(0).unwrap_or(b"")
}

/// The code of an end: its own, or 128 and the signal.
pub fn code_of(ended: Ended) -> u8
    requires { IsWaitStatus ended }
    ensures { result ≡ code_of ended }
{
    match ended {
        Ended::Exited(code) => code,
        Ended::Killed(signal) => KILLED + signal,
    }
}
