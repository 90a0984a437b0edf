//! fdclose fd prog..
#![tactic(auto, using(el_front::proofs::Rooms::rooms), unfolding(el_front::specs::Steps::acting, crate::specs::Fdclose::fdclose))]

ghost use Rattle.el_room.specs.Vocabulary.{are_usable, read_of, Acts, OnlyToRefuse};
ghost use Rattle.std.specs.Prelude.{◌≡◌, true};
ghost use Rattle.el_redir.specs.Fdclose.{fdclose};

use crate::numbers::read_number;
use crate::putting::drop_number;
use el_room::{Finish, Front, Proc, Prog, World};
use std::alloc::Global;

/// The number holds nothing from then on, and the process goes on with the rest. What it held is closed, if
/// the world gave it and no other number holds it. A number that holds nothing stays so.
///
/// The process ends with 100 where the word is no number or is 64 or more, behind a message. It takes memory
/// for a message alone.
///
/// The rule is execline's (https://skarnet.org/software/execline/fdclose.html); that the numbers end at 63 is
/// this project's own.
pub fn fdclose<W: World>(
    alloc: Global,
    front: Front,
    proc: &mut Proc,
    world: &mut W,
) -> Result<(), Finish>
    requires { are_usable (W.seen world.old).held proc.old.fds ≡ true }
    ensures acts { Acts (W.seen world.old) (W.seen world.new) fdclose (read_of front) proc.old proc.new result }
    ensures memory { OnlyToRefuse Prog.Fdclose fdclose (read_of front) proc.old result }
{
    let number = read_number(alloc, proc, Prog::Fdclose, &front, world)?;
    drop_number(&mut proc.fds, number, world);
    proc.words = front.into_rest();
    Ok(())
}
