//! pipeline [-r|-w] { a } prog..
#![tactic(auto, using(el_front::proofs::Rooms::rooms), unfolding(el_front::specs::Steps::acting, crate::specs::Pipeline::pipeline))]

ghost use Rattle.el_room.specs.Vocabulary.{are_usable, Follows, state_of, read_of, Acts};
ghost use Rattle.std.specs.Prelude.{◌≡◌, true, IfOk};
ghost use Rattle.el_pipes.specs.Pipes.{end_at, other_side, IsLoose, AreLoose};
ghost use Rattle.el_pipes.specs.Pipeline.{block_side, starting_kid, pipeline};

use crate::pipes::{close_end, make_pipe, start_at, take_end};
use crate::side::Side;
use el_room::{
    Finish, Front, Nth, Pid, PipeEnds, Proc, Prog, Words, World, note_kid, tell_unstarted,
};
use std::alloc::Global;

/// Starts the block, which writes to a new pipe, and the process goes on with the rest and reads from it. The
/// block joins the children, and `!` is its number; where there was nothing to start, or the command isn't
/// found or can't be started (behind a message with its own name), `!` is 0. With `-w` the block reads and
/// the process writes; of `-r` and `-w` the last counts.
///
/// The process ends with 111 where there is no pipe or the start fails, each behind a message.
///
/// The rule is execline's (https://skarnet.org/software/execline/pipeline.html), without `-d`; that a command
/// which isn't found sets `!` to 0 is this project's own.
pub fn pipeline<W: World>(
    alloc: Global,
    front: Front,
    proc: &mut Proc,
    world: &mut W,
) -> Result<(), Finish>
    requires { are_usable (W.seen world.old).held proc.old.fds ≡ true }
    ensures { Acts (W.seen world.old) (W.seen world.new) pipeline (read_of front) proc.old proc.new result }
{
    let block = front.block(alloc, Nth::First)?;
    let side = block_side(&front);
    let ends = make_pipe(alloc, proc, Prog::Pipeline, world)?;
    let kid = start(alloc, proc, &block, side, ends, world)?;
    note_kid(alloc, kid, &mut proc.env, &mut proc.kids)?;
    take_end(&mut proc.fds, side.other(), ends, world);
    proc.words = front.into_rest();
    Ok(())
}

// The side of the pipe that the block has.
fn block_side(front: &Front) -> Side
    ensures { result ≡ block_side (read_of front.now) }
{
    if front.has(b'w') {
        Side::Input
    } else {
        Side::Output
    }
}

// Starts the block and closes its end. None where it doesn't run, which is told of.
#[tactic(auto, using(el_front::proofs::Rooms::rooms), unfolding(crate::specs::Pipeline::starting_kid))]
fn start<W: World>(
    alloc: Global,
    proc: &Proc,
    block: &Words,
    side: Side,
    ends: PipeEnds,
    world: &mut W,
) -> Result<Option<Pid>, Finish>
    requires usable { are_usable (W.seen world.old).held proc.now.fds ≡ true }
    requires loose { AreLoose (W.seen world.old).held proc.now.fds ends }
    ensures run { Follows (W.seen world.old) (W.seen world.new) (starting_kid (state_of proc.now) block.now side ends) proc.now.budget result (λ kid. kid) (state_of proc.now) proc.now.budget }
    ensures usable { are_usable (W.seen world.new).held proc.now.fds ≡ true }
    ensures other { IfOk result (λ _. IsLoose (W.seen world.new).held proc.now.fds (end_at (other_side side) ends)) }
{
    let started = start_at(alloc, proc, Prog::Pipeline, block, side, ends, world)?;
    close_end(&proc.fds, side, ends, world);
    tell_unstarted(alloc, &proc.fds, block, started, world)?;
    Ok(started.pid())
}
