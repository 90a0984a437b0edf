//! unexport var prog..
#![tactic(auto, using(el_front::proofs::Rooms::rooms), unfolding(el_front::specs::Steps::acting, crate::specs::Unexport::unexport))]

ghost use Rattle.el_room.specs.Vocabulary.{are_usable, Follows, state_of, left_of, read_of, Acts};
ghost use Rattle.std.specs.Prelude.{◌≡◌, ◌<◌, true, length};
ghost use Rattle.el_vars.specs.Unexport.{unexport};

use el_room::{Finish, Front, Nth, Proc, Prog, Trouble, World, bad_name, is_good_name, refused};
use std::alloc::Global;

/// Removes the variable, where it is set, and the process goes on with the rest.
///
/// The process ends with 100 where no variable can have the name, behind a message.
///
/// The rule is execline's (https://skarnet.org/software/execline/unexport.html).
pub fn unexport<W: World>(
    alloc: Global,
    front: Front,
    proc: &mut Proc,
    world: &mut W,
) -> Result<(), Finish>
    requires { are_usable (W.seen world.old).held proc.old.fds ≡ true }
    ensures { Acts (W.seen world.old) (W.seen world.new) unexport (read_of front) proc.old proc.new result }
{
    let name = front.text(Nth::First);
    if !is_good_name(name) {
        let subject = bad_name(name);
        return Err(refused(
            alloc,
            &proc.fds,
            Prog::Unexport,
            Trouble::BadName,
            Some(subject),
            world,
        ));
    }
    proc.env.unset(name);
    proc.words = front.into_rest();
    Ok(())
}
