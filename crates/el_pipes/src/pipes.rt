//! Pipes between a process and one that it starts.
ghost use Rattle.el_room.specs.Vocabulary.{are_usable, pipe_act, close_act, Follows, Done, ok_value, state_of, closing, lost_handles};
ghost use Rattle.std.specs.Prelude.{◌≡◌, true, IfOk, Some, slice_set};
ghost use Rattle.el_world.specs.Runs.{call_result};
ghost use Rattle.el_pipes.specs.Pipes.{number_at, end_at, other_side, piped, starting_at, started_at, closing_ends, IsLoose, AreLoose};

use crate::side::Side;
use el_proc::Started;
use el_room::{
    Fault, Fds, Finish, NoMemory, PipeEnds, Proc, Prog, Trouble, Words, World, call, close_handle,
    close_lost, refused, start_child,
};
use std::alloc::Global;

/// Makes a pipe. Where there is none the process ends with 111, behind a message.
#[tactic(auto, using(el_front::proofs::Rooms::rooms), unfolding(crate::specs::Pipes::piped))]
pub fn make_pipe<W: World>(
    alloc: Global,
    proc: &Proc,
    program: Prog,
    world: &mut W,
) -> Result<PipeEnds, Finish>
    requires { are_usable (W.seen world.old).held proc.now.fds ≡ true }
    ensures run { Follows (W.seen world.old) (W.seen world.new) (piped program (state_of proc.now)) proc.now.budget result (λ ends. ends) (state_of proc.now) proc.now.budget }
    ensures usable { are_usable (W.seen world.new).held proc.now.fds ≡ true }
    ensures loose { IfOk result (AreLoose (W.seen world.new).held proc.now.fds) }
{
    match pipe(&proc.fds, world)? {
        Ok(ends) => Ok(ends),
        Err(_) => Err(refused(alloc, &proc.fds, program, Trouble::Failed, None, world)),
    }
}

fn pipe<W: World>(fds: &Fds, world: &mut W) -> Result<Result<PipeEnds, Fault>, NoMemory>
    requires { are_usable (W.seen world.old).held fds.now ≡ true }
    ensures run { Done (W.seen world.old) (W.seen world.new) pipe_act (ok_value result) }
    ensures usable { are_usable (W.seen world.new).held fds.now ≡ true }
    ensures loose { IfOk result (λ answer. IfOk answer (AreLoose (W.seen world.new).held fds.now)) }
{
    call::pipe(world)
}

/// Starts a block with its end of the pipe at the number of its side, as `start_child` does. Where the start
/// fails both ends are closed, and the process ends with 111, behind a message.
#[tactic(auto, using(el_front::proofs::Rooms::rooms), unfolding(crate::specs::Pipes::started_at))]
pub fn start_at<W: World>(
    alloc: Global,
    proc: &Proc,
    program: Prog,
    block: &Words,
    side: Side,
    ends: PipeEnds,
    world: &mut W,
) -> Result<Started, Finish>
    requires usable { are_usable (W.seen world.old).held proc.now.fds ≡ true }
    requires loose { AreLoose (W.seen world.old).held proc.now.fds ends }
    ensures run { Follows (W.seen world.old) (W.seen world.new) (started_at program (state_of proc.now) block.now side ends) proc.now.budget result (λ started. started) (state_of proc.now) proc.now.budget }
    ensures usable { are_usable (W.seen world.new).held proc.now.fds ≡ true }
    ensures loose { IfOk result (λ _. AreLoose (W.seen world.new).held proc.now.fds ends) }
{
    match start(proc, block, side, ends, world) {
        Ok(started) => Ok(started),
        Err(Fault::Failed) => {
            close_ends(&proc.fds, ends, world);
            Err(refused(alloc, &proc.fds, program, Trouble::Failed, None, world))
        }
        Err(Fault::NoMemory) => Err(Finish::NoMemory),
    }
}

fn start<W: World>(
    proc: &Proc,
    block: &Words,
    side: Side,
    ends: PipeEnds,
    world: &mut W,
) -> Result<Started, Fault>
    requires usable { are_usable (W.seen world.old).held proc.now.fds ≡ true }
    requires loose { AreLoose (W.seen world.old).held proc.now.fds ends }
    ensures run { Done (W.seen world.old) (W.seen world.new) (starting_at (state_of proc.now) block.now side ends) (call_result result) }
    ensures usable { are_usable (W.seen world.new).held proc.now.fds ≡ true }
    ensures loose { AreLoose (W.seen world.new).held proc.now.fds ends }
{
    let mut streams = proc.fds.streams();
    streams[side.number()] = Some(side.end(ends));
    start_child(block, &proc.env, &proc.dir, &streams, world)
}

/// Closes the end of a side. The other one stays.
pub fn close_end<W: World>(fds: &Fds, side: Side, ends: PipeEnds, world: &mut W)
    requires usable { are_usable (W.seen world.old).held fds.now ≡ true }
    requires loose { AreLoose (W.seen world.old).held fds.now ends }
    ensures run { Done (W.seen world.old) (W.seen world.new) (close_act (end_at side ends)) (Some tt) }
    ensures usable { are_usable (W.seen world.new).held fds.now ≡ true }
    ensures other { IsLoose (W.seen world.new).held fds.now (end_at (other_side side) ends) }
{
    close_handle(fds, side.end(ends), world);
}

/// Closes the writer and then the reader.
#[tactic(auto, using(el_world::proofs::Runs::acts), unfolding(el_proc::specs::Descriptors::closing))]
pub fn close_ends<W: World>(fds: &Fds, ends: PipeEnds, world: &mut W)
    requires usable { are_usable (W.seen world.old).held fds.now ≡ true }
    requires loose { AreLoose (W.seen world.old).held fds.now ends }
    ensures run { Done (W.seen world.old) (W.seen world.new) (closing_ends ends) (Some tt) }
    ensures usable { are_usable (W.seen world.new).held fds.now ≡ true }
{
    close_end(fds, Side::Output, ends, world);
    close_handle(fds, ends.reader, world);
}

/// The process's number takes its end of the pipe. What it held before is closed, if the world gave it and
/// no number holds it any more.
pub(crate) fn take_end<W: World>(fds: &mut Fds, side: Side, ends: PipeEnds, world: &mut W)
    requires usable { are_usable (W.seen world.old).held fds.old ≡ true }
    requires loose { IsLoose (W.seen world.old).held fds.old (end_at side ends) }
    ensures run { Done (W.seen world.old) (W.seen world.new) (closing (lost_handles fds.old (slice_set fds.old (number_at side) (Some (end_at side ends))))) (Some tt) }
    ensures fds { fds.new ≡ slice_set fds.old (number_at side) (Some (end_at side ends)) }
    ensures usable { are_usable (W.seen world.new).held fds.new ≡ true }
{
    if let Ok(lost) = fds.put(side.number() as u64, side.end(ends)) {
        close_lost(fds, lost, world);
    }
}
