//! background { a } prog..
#![tactic(auto, using(el_front::proofs::Rooms::rooms), unfolding(el_front::specs::Steps::acting, crate::specs::Background::background))]

ghost use Rattle.el_room.specs.Vocabulary.{are_usable, Follows, state_of, left_of, read_of, Acts};
ghost use Rattle.std.specs.Prelude.{◌≡◌, ◌<◌, true, length};
ghost use Rattle.el_control.specs.Background.{starting_kid, background};

use el_room::{
    Fault, Finish, Front, Nth, Pid, Proc, Prog, Trouble, Words, World, note_kid, refused,
    start_child, tell_unstarted,
};
use std::alloc::Global;

/// Starts the block and doesn't wait for it. Sets `!` to its number, and it joins the children. Where there
/// was nothing to start, or the command isn't found or can't be started (behind a message with its own name),
/// `!` is 0. Then the process goes on with the rest.
///
/// The process ends with 111 where the start fails, behind a message.
///
/// The rule is execline's (https://skarnet.org/software/execline/background.html), without `-d`; that a
/// command which isn't found sets `!` to 0 is this project's own.
pub fn background<W: World>(
    alloc: Global,
    front: Front,
    proc: &mut Proc,
    world: &mut W,
) -> Result<(), Finish>
    requires { are_usable (W.seen world.old).held proc.old.fds ≡ true }
    ensures { Acts (W.seen world.old) (W.seen world.new) background (read_of front) proc.old proc.new result }
{
    let words = front.block(alloc, Nth::First)?;
    let kid = start(alloc, proc, &words, world)?;
    note_kid(alloc, kid, &mut proc.env, &mut proc.kids)?;
    proc.words = front.into_rest();
    Ok(())
}

// Starts the block. None where it doesn't run, since there was nothing to start or its command can't be
// started.
#[tactic(auto, using(el_front::proofs::Rooms::rooms, el_proc::proofs::Usable::usable), unfolding(crate::specs::Background::starting_kid))]
fn start<W: World>(
    alloc: Global,
    proc: &Proc,
    block: &Words,
    world: &mut W,
) -> Result<Option<Pid>, Finish>
    requires { are_usable (W.seen world.old).held proc.now.fds ≡ true }
    ensures run { Follows (W.seen world.old) (W.seen world.new) (starting_kid (state_of proc.now) block.now) proc.now.budget result (λ kid. kid) (state_of proc.now) proc.now.budget }
    ensures usable { are_usable (W.seen world.new).held proc.now.fds ≡ true }
{
    let streams = proc.fds.streams();
    let started = match start_child(block, &proc.env, &proc.dir, &streams, world) {
        Ok(started) => started,
        Err(Fault::Failed) => {
            return Err(refused(
                alloc,
                &proc.fds,
                Prog::Background,
                Trouble::Failed,
                None,
                world,
            ));
        }
        Err(Fault::NoMemory) => return Err(Finish::NoMemory),
    };
    tell_unstarted(alloc, &proc.fds, block, started, world)?;
    Ok(started.pid())
}
