//! emptyenv [-p] prog..
#![tactic(auto, using(el_front::proofs::Rooms::rooms), unfolding(el_front::specs::Steps::acting, crate::specs::Emptyenv::emptyenv))]

ghost use Rattle.el_room.specs.Vocabulary.{are_usable, Follows, state_of, left_of, read_of, Acts};
ghost use Rattle.std.specs.Prelude.{◌≡◌, ◌<◌, true, length, OnOk};
ghost use Rattle.el_vars.specs.Emptyenv.{env_left, emptyenv};

use el_room::{Env, Finish, Front, NoMemory, Proc, Prog, World};
use std::alloc::Global;

/// Removes all variables, and the process goes on with the rest. With `-p` PATH stays.
///
/// The rule is execline's (https://skarnet.org/software/execline/emptyenv.html), without `-c`, `-o` and `-P`.
pub fn emptyenv<W: World>(
    alloc: Global,
    front: Front,
    proc: &mut Proc,
    world: &mut W,
) -> Result<(), Finish>
    requires { are_usable (W.seen world.old).held proc.old.fds ≡ true }
    ensures { Acts (W.seen world.old) (W.seen world.new) emptyenv (read_of front) proc.old proc.new result }
{
    empty(alloc, &front, &mut proc.env)?;
    proc.words = front.into_rest();
    Ok(())
}

// Removes all variables, or with `-p` all but PATH.
fn empty(alloc: Global, front: &Front, env: &mut Env) -> Result<(), NoMemory>
    ensures { OnOk result (env.new ≡ env_left (read_of front.now) env.old) }
{
    if front.has(b'p') {
        return env.keep_only(b"PATH");
    }
    *env = Env::new(alloc);
    Ok(())
}
