//! if [-X] [-n] [-t | -x code] { a } prog..
#![tactic(auto, using(el_front::proofs::Rooms::rooms), unfolding(el_front::specs::Steps::acting, crate::specs::If::if_then))]

ghost use Rattle.el_room.specs.Vocabulary.{are_usable, read_of, Acts};
ghost use Rattle.std.specs.Prelude.{◌≡◌, true};
ghost use Rattle.el_control.specs.If.{failed_status, if_then};

use crate::endings::code_named;
use crate::tested::test_block;
use el_room::{Finish, Front, Proc, Prog, World};
use std::alloc::Global;

/// Runs the block as a test, which holds where it ended with 0. Where it holds the process goes on with the
/// rest. An empty block starts nothing and counts as ended with 0, so that the test holds; a command that
/// isn't found or can't be started counts as ended with 127 or 126, behind a message with its own name. With
/// `-n` the test holds where it didn't end with 0. With `-X` a test that was killed counts as one that didn't
/// end with 0.
///
/// Where the test doesn't hold the process ends with 1, with `-t` with 0, and with `-x` with the status given
/// there; of these two the last counts. It ends with 128 and the signal where the test was killed, unless
/// `-X` is given, and with 111 where the start or the wait fails, behind a message.
///
/// The rule is execline's (https://skarnet.org/software/execline/if.html); the status 1, and that a test
/// whose command isn't found counts as ended, are this project's own.
pub fn if_then<W: World>(
    alloc: Global,
    front: Front,
    proc: &mut Proc,
    world: &mut W,
) -> Result<(), Finish>
    requires { are_usable (W.seen world.old).held proc.old.fds ≡ true }
    ensures { Acts (W.seen world.old) (W.seen world.new) if_then (read_of front) proc.old proc.new result }
{
    let holds = test_block(alloc, proc, Prog::If, &front, world)?;
    if holds {
        proc.words = front.into_rest();
        Ok(())
    } else {
        Err(Finish::Status(failed_status(&front)))
    }
}

// The status where the test doesn't hold.
fn failed_status(front: &Front) -> u8
    ensures { result ≡ failed_status (read_of front.now) }
{
    if front.has(b't') {
        return 0;
    }
    match front.value(b'x') {
        Some(text) => code_named(text).unwrap_or(FAILED),
        None => FAILED,
    }
}

// The status without `-t` and `-x`.
const FAILED: u8 = 1;
