//! foreground { a } prog..
#![tactic(auto, using(el_front::proofs::Rooms::rooms), unfolding(el_front::specs::Steps::acting, crate::specs::Foreground::foreground))]

ghost use Rattle.el_room.specs.Vocabulary.{are_usable, read_of, Acts};
ghost use Rattle.std.specs.Prelude.{◌≡◌, true};
ghost use Rattle.el_control.specs.Foreground.{foreground};

use crate::endings::set_status;
use el_room::{Finish, Front, Nth, Proc, Prog, World, run_block};
use std::alloc::Global;

/// Runs the block as a child, and sets `?` to its status, or to 256 and the signal that killed it. An empty
/// block starts nothing and sets it to 0; a command that isn't found or can't be started sets it to 127 or
/// 126, behind a message with its own name. Then the process goes on with the rest.
///
/// The process ends with 111 where the start or the wait fails, behind a message.
///
/// The rule is execline's (https://skarnet.org/software/execline/foreground.html); that an empty block is run
/// without a message is this project's own.
pub fn foreground<W: World>(
    alloc: Global,
    front: Front,
    proc: &mut Proc,
    world: &mut W,
) -> Result<(), Finish>
    requires { are_usable (W.seen world.old).held proc.old.fds ≡ true }
    ensures { Acts (W.seen world.old) (W.seen world.new) foreground (read_of front) proc.old proc.new result }
{
    let ended = run_block(alloc, proc, Prog::Foreground, &front, Nth::First, world)?;
    set_status(alloc, &mut proc.env, ended)?;
    proc.words = front.into_rest();
    Ok(())
}
