//! ifelse [-X] [-n] { test } { then } prog..
#![tactic(auto, using(el_front::proofs::Rooms::rooms), unfolding(el_front::specs::Steps::acting, crate::specs::Ifelse::ifelse))]

ghost use Rattle.el_room.specs.Vocabulary.{are_usable, Follows, state_of, left_of, read_of, Acts};
ghost use Rattle.std.specs.Prelude.{◌≡◌, ◌<◌, true, length};
ghost use Rattle.el_control.specs.Ifelse.{ifelse};

use crate::tested::test_block;
use el_room::{Finish, Front, Nth, Proc, Prog, World};
use std::alloc::Global;

/// Runs the first block as a test, which holds where it ended with 0. Where it holds the process goes on with
/// the words of the second block in place of the rest, and otherwise with the rest. An empty block starts
/// nothing and counts as ended with 0, so that the test holds; a command that isn't found or can't be started
/// counts as ended with 127 or 126, behind a message with its own name. With `-n` the test holds where it
/// didn't end with 0. With `-X` a test that was killed counts as one that didn't end with 0.
///
/// The process ends with 128 and the signal where the test was killed, unless `-X` is given, and with 111
/// where the start or the wait fails, behind a message.
///
/// The rule is execline's (https://skarnet.org/software/execline/ifelse.html); that a test whose command
/// isn't found counts as ended is this project's own.
pub fn ifelse<W: World>(
    alloc: Global,
    front: Front,
    proc: &mut Proc,
    world: &mut W,
) -> Result<(), Finish>
    requires { are_usable (W.seen world.old).held proc.old.fds ≡ true }
    ensures { Acts (W.seen world.old) (W.seen world.new) ifelse (read_of front) proc.old proc.new result }
{
    if test_block(alloc, proc, Prog::Ifelse, &front, world)? {
        proc.words = front.block(alloc, Nth::Second)?;
    } else {
        proc.words = front.into_rest();
    }
    Ok(())
}
