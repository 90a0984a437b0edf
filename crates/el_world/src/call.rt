//! The calls of a world with want of memory apart from their answers. All code above calls a world
//! through these, so that its `?` passes want of memory on and nothing else.
ghost use Rattle.std.specs.Prelude.{◌≡◌, ◌<◌, ◌≤◌, true, length, IfOk, Some};
ghost use Rattle.el_world.specs.World.{IsWaitStatus};
ghost use Rattle.el_world.specs.Handles.{is_held, is_usable, are_usable, without, opened_handles, piped_handles};
ghost use Rattle.el_world.specs.Acts.{start_act, wait_act, open_act, pipe_act, feed_act, read_act, write_act, close_act, enter_act};
ghost use Rattle.el_world.specs.Runs.{Done, ok_value, call_result, NowHolds};

use crate::{Ended, Fault, Handle, MAX_PIECE, Mode, Pid, PipeEnds, StartFault, World};
use el_env::Env;
use el_words::{Bytes, NoMemory, Word, Words};

/// Starts a process. The inner answer isn't `NoMemory`.
pub fn start<W: World>(
    words: &Words,
    env: &Env,
    dir: &Word,
    ends: &[Option<Handle>; 3],
    world: &mut W,
) -> Result<Result<Pid, StartFault>, NoMemory>
    requires words { 0 < length words.now }
    requires ends { are_usable (W.seen world.old).held ends.now ≡ true }
    ensures run { Done (W.seen world.old) (W.seen world.new) (start_act words.now env.now dir.now ends.now) (ok_value result) }
    ensures held { (W.seen world.new).held ≡ (W.seen world.old).held }
{
    match world.start(words, env, dir, ends) {
        Ok(pid) => Ok(Ok(pid)),
        Err(StartFault::NotFound) => Ok(Err(StartFault::NotFound)),
        Err(StartFault::NotStartable) => Ok(Err(StartFault::NotStartable)),
        Err(StartFault::Failed) => Ok(Err(StartFault::Failed)),
        Err(StartFault::NoMemory) => Err(NoMemory),
    }
}

/// Waits for a process. The inner answer isn't `NoMemory`.
pub fn wait<W: World>(pid: Pid, world: &mut W) -> Result<Result<Ended, Fault>, NoMemory>
    ensures run { Done (W.seen world.old) (W.seen world.new) (wait_act pid) (ok_value result) }
    ensures held { (W.seen world.new).held ≡ (W.seen world.old).held }
    ensures signal { IfOk result (λ answer. IfOk answer IsWaitStatus) }
{
    answered(world.wait(pid))
}

/// Opens a file. The inner answer isn't `NoMemory`.
pub fn open_file<W: World>(
    dir: &Word,
    path: &Word,
    mode: Mode,
    world: &mut W,
) -> Result<Result<Handle, Fault>, NoMemory>
    ensures run { Done (W.seen world.old) (W.seen world.new) (open_act dir.now path.now mode) (ok_value result) }
    ensures held { NowHolds (W.seen world.old) (W.seen world.new) result opened_handles }
    ensures given { IfOk result (λ answer. IfOk answer (λ handle. is_held (W.seen world.new).held handle ≡ true)) }
{
    answered(world.open_file(dir, path, mode))
}

/// Makes a pipe. The inner answer isn't `NoMemory`.
pub fn pipe<W: World>(world: &mut W) -> Result<Result<PipeEnds, Fault>, NoMemory>
    ensures run { Done (W.seen world.old) (W.seen world.new) pipe_act (ok_value result) }
    ensures held { NowHolds (W.seen world.old) (W.seen world.new) result piped_handles }
    ensures reader { IfOk result (λ answer. IfOk answer (λ ends. is_held (W.seen world.new).held ends.reader ≡ true)) }
    ensures writer { IfOk result (λ answer. IfOk answer (λ ends. is_held (W.seen world.new).held ends.writer ≡ true)) }
{
    answered(world.pipe())
}

/// Gives a handle from which these bytes can be read. The inner answer isn't `NoMemory`.
pub fn feed<W: World>(bytes: &[u8], world: &mut W) -> Result<Result<Handle, Fault>, NoMemory>
    ensures run { Done (W.seen world.old) (W.seen world.new) (feed_act bytes.now) (ok_value result) }
    ensures held { NowHolds (W.seen world.old) (W.seen world.new) result opened_handles }
    ensures given { IfOk result (λ answer. IfOk answer (λ handle. is_held (W.seen world.new).held handle ≡ true)) }
{
    answered(world.feed(bytes))
}

/// Reads at most `MAX_PIECE` bytes, or none at the end of input. The inner answer isn't `NoMemory`.
pub fn read<W: World>(handle: Handle, world: &mut W) -> Result<Result<Bytes, Fault>, NoMemory>
    requires { is_usable (W.seen world.old).held handle ≡ true }
    ensures run { Done (W.seen world.old) (W.seen world.new) (read_act handle) (ok_value result) }
    ensures held { (W.seen world.new).held ≡ (W.seen world.old).held }
    ensures piece { IfOk result (λ answer. IfOk answer (λ bytes. length bytes ≤ MAX_PIECE)) }
{
    answered(world.read(handle))
}

/// Writes bytes. The inner answer isn't `NoMemory`.
pub fn write<W: World>(
    handle: Handle,
    bytes: &[u8],
    world: &mut W,
) -> Result<Result<(), Fault>, NoMemory>
    requires { is_usable (W.seen world.old).held handle ≡ true }
    ensures run { Done (W.seen world.old) (W.seen world.new) (write_act handle bytes.now) (ok_value result) }
    ensures held { (W.seen world.new).held ≡ (W.seen world.old).held }
{
    answered(world.write(handle, bytes))
}

/// Closes a handle that the world gave.
pub fn close<W: World>(handle: Handle, world: &mut W)
    requires { is_held (W.seen world.old).held handle ≡ true }
    ensures run { Done (W.seen world.old) (W.seen world.new) (close_act handle) (Some tt) }
    ensures held { (W.seen world.new).held ≡ without (W.seen world.old).held handle }
{
    world.close(handle)
}

/// Names the directory that `path` means from `dir`. The inner answer isn't `NoMemory`.
pub fn enter<W: World>(
    dir: &Word,
    path: &Word,
    world: &mut W,
) -> Result<Result<Word, Fault>, NoMemory>
    ensures run { Done (W.seen world.old) (W.seen world.new) (enter_act dir.now path.now) (ok_value result) }
    ensures held { (W.seen world.new).held ≡ (W.seen world.old).held }
{
    answered(world.enter(dir, path))
}

// An answer with want of memory apart.
fn answered<T>(answer: Result<T, Fault>) -> Result<Result<T, Fault>, NoMemory>
    ensures { ok_value result ≡ call_result answer }
{
    match answer {
        Ok(value) => Ok(Ok(value)),
        Err(Fault::Failed) => Ok(Err(Fault::Failed)),
        Err(Fault::NoMemory) => Err(NoMemory),
    }
}
