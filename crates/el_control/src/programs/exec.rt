//! exec [-c] prog..
#![tactic(auto, using(el_front::proofs::Rooms::rooms), unfolding(el_front::specs::Steps::acting, crate::specs::Exec::exec))]

ghost use Rattle.el_room.specs.Vocabulary.{are_usable, Follows, state_of, left_of, read_of, Acts};
ghost use Rattle.std.specs.Prelude.{◌≡◌, ◌<◌, true, length};
ghost use Rattle.el_control.specs.Exec.{env_left, exec};

use el_room::{Env, Finish, Front, Proc, Prog, World};
use std::alloc::Global;

/// The process goes on with the rest. With `-c` all its variables are unset first.
///
/// The rule is execline's (https://skarnet.org/software/execline/exec.html), without `-a` and `-l`; that the
/// process doesn't become the last command is this project's own.
pub fn exec<W: World>(
    alloc: Global,
    front: Front,
    proc: &mut Proc,
    world: &mut W,
) -> Result<(), Finish>
    requires { are_usable (W.seen world.old).held proc.old.fds ≡ true }
    ensures { Acts (W.seen world.old) (W.seen world.new) exec (read_of front) proc.old proc.new result }
{
    empty_if_asked(alloc, &front, &mut proc.env);
    proc.words = front.into_rest();
    Ok(())
}

// With `-c` no variables are left.
fn empty_if_asked(alloc: Global, front: &Front, env: &mut Env)
    ensures { env.new ≡ env_left (read_of front.now) env.old }
{
    if front.has(b'c') {
        *env = Env::new(alloc);
    }
}
