//! ifthenelse [-X] { test } { then } { else } prog..
#![tactic(auto, using(el_front::proofs::Rooms::rooms), unfolding(el_front::specs::Steps::acting, crate::specs::Ifthenelse::ifthenelse))]

ghost use Rattle.el_room.specs.Vocabulary.{are_usable, Follows, state_of, left_of, read_of, Acts};
ghost use Rattle.std.specs.Prelude.{◌≡◌, ◌<◌, true, length};
ghost use Rattle.el_control.specs.Ifthenelse.{branch, ifthenelse};

use crate::tested::test_block;
use el_room::{Finish, Front, Nth, Proc, Prog, World, run_block};
use std::alloc::Global;

/// Runs the first block as a test, which holds where it ended with 0. Then it runs the second as a child
/// where the test holds, or the third where it doesn't; the status or the signal of that child has no effect.
/// Then the process goes on with the rest. An empty block starts nothing and counts as ended with 0, so that
/// as a test it holds; a command that isn't found or can't be started counts as ended with 127 or 126, behind
/// a message with its own name. With `-X` a test that was killed counts as one that didn't end with 0. There
/// is no `-n`.
///
/// The process ends with 128 and the signal where the test was killed, unless `-X` is given, and with 111
/// where the start or the wait of the test or of the other child fails, behind a message.
///
/// The rule is execline's (https://skarnet.org/software/execline/ifthenelse.html), without `-s`; that `?`
/// isn't set, and that a test whose command isn't found counts as ended, are this project's own.
pub fn ifthenelse<W: World>(
    alloc: Global,
    front: Front,
    proc: &mut Proc,
    world: &mut W,
) -> Result<(), Finish>
    requires { are_usable (W.seen world.old).held proc.old.fds ≡ true }
    ensures { Acts (W.seen world.old) (W.seen world.new) ifthenelse (read_of front) proc.old proc.new result }
{
    let holds = test_block(alloc, proc, Prog::Ifthenelse, &front, world)?;
    run_block(alloc, proc, Prog::Ifthenelse, &front, branch(holds), world)?;
    proc.words = front.into_rest();
    Ok(())
}

// The block that is run as a child.
fn branch(holds: bool) -> Nth
    ensures { result ≡ branch holds }
{
    if holds { Nth::Second } else { Nth::Third }
}
