//! cd dir prog..
#![tactic(auto, using(el_front::proofs::Rooms::rooms), unfolding(el_front::specs::Steps::acting, crate::specs::Cd::cd))]

ghost use Rattle.el_room.specs.Vocabulary.{are_usable, enter_act, Done, ok_value, the_text, read_of, Acts, First};
ghost use Rattle.std.specs.Prelude.{◌≡◌, true};
ghost use Rattle.el_control.specs.Cd.{cd};

use el_room::{
    Fault, Finish, Front, NoMemory, Nth, Proc, Prog, Trouble, Word, World, call, refused,
};
use std::alloc::Global;

/// The directory that the word means from the process's own becomes its own, and the process goes on with the
/// rest.
///
/// The process ends with 111 where the world names no such directory, behind a message.
///
/// The rule is execline's (https://skarnet.org/software/execline/cd.html).
pub fn cd<W: World>(
    alloc: Global,
    front: Front,
    proc: &mut Proc,
    world: &mut W,
) -> Result<(), Finish>
    requires { are_usable (W.seen world.old).held proc.old.fds ≡ true }
    ensures { Acts (W.seen world.old) (W.seen world.new) cd (read_of front) proc.old proc.new result }
{
    match enter(alloc, proc, &front, world)? {
        Ok(dir) => {
            proc.dir = dir;
            proc.words = front.into_rest();
            Ok(())
        }
        Err(_) => Err(refused(alloc, &proc.fds, Prog::Cd, Trouble::Failed, None, world)),
    }
}

// The directory that the word means.
#[tactic(auto, using(el_world::proofs::Runs::acts))]
fn enter<W: World>(
    alloc: Global,
    proc: &Proc,
    front: &Front,
    world: &mut W,
) -> Result<Result<Word, Fault>, NoMemory>
    requires { are_usable (W.seen world.old).held proc.now.fds ≡ true }
    ensures run { Done (W.seen world.old) (W.seen world.new) (enter_act proc.now.dir (the_text First (read_of front.now))) (ok_value result) }
    ensures usable { are_usable (W.seen world.new).held proc.now.fds ≡ true }
{
    let path = front.word(alloc, Nth::First)?;
    call::enter(&proc.dir, &path, world)
}
