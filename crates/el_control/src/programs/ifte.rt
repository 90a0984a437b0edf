//! ifte [-X] [-n] { then } { else } test..
#![tactic(auto, using(el_front::proofs::Rooms::rooms), unfolding(el_front::specs::Steps::acting, crate::specs::Ifte::ifte))]

ghost use Rattle.el_room.specs.Vocabulary.{are_usable, Follows, state_of, left_of, read_of, Acts};
ghost use Rattle.std.specs.Prelude.{◌≡◌, ◌<◌, true, length};
ghost use Rattle.el_control.specs.Ifte.{branch, ifte};

use crate::tested::test_words;
use el_room::{Finish, Front, Nth, Proc, Prog, World};
use std::alloc::Global;

/// Runs the rest as a test, which holds where it ended with 0. Then the process goes on with the words of the
/// first block where it holds, and with those of the second otherwise. A rest without words starts nothing
/// and counts as ended with 0, so that the test holds; a command that isn't found or can't be started counts
/// as ended with 127 or 126, behind a message with its own name. With `-n` the test holds where it didn't end
/// with 0. With `-X` a test that was killed counts as one that didn't end with 0.
///
/// The process ends with 128 and the signal where the test was killed, unless `-X` is given, and with 111
/// where the start or the wait fails, behind a message.
///
/// The rule is execline's (https://skarnet.org/software/execline/ifte.html); that a test whose command isn't
/// found counts as ended is this project's own.
pub fn ifte<W: World>(
    alloc: Global,
    front: Front,
    proc: &mut Proc,
    world: &mut W,
) -> Result<(), Finish>
    requires { are_usable (W.seen world.old).held proc.old.fds ≡ true }
    ensures { Acts (W.seen world.old) (W.seen world.new) ifte (read_of front) proc.old proc.new result }
{
    let rest = front.rest()?;
    let holds = test_words(alloc, proc, Prog::Ifte, &front, &rest, world)?;
    proc.words = front.block(alloc, branch(holds))?;
    Ok(())
}

// The block whose words are run next.
fn branch(holds: bool) -> Nth
    ensures { result ≡ branch holds }
{
    if holds { Nth::First } else { Nth::Second }
}
