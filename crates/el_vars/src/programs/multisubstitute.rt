//! multisubstitute { directives } prog..
#![tactic(auto, using(el_front::proofs::Rooms::rooms), unfolding(el_front::specs::Steps::acting, crate::specs::Multisubstitute::multisubstitute))]

ghost use Rattle.el_room.specs.Vocabulary.{are_usable, read_of, Acts};
ghost use Rattle.std.specs.Prelude.{◌≡◌, true};
ghost use Rattle.el_vars.specs.Multisubstitute.{multisubstitute};

use crate::putting::put_values;
use el_room::{Finish, Front, Proc, Prog, World};
use std::alloc::Global;

/// Puts the values of all directives of its block in at once, and the process goes on with the rest. The
/// directives are define, importas, multidefine and elgetpositionals, with their letters and words. All names
/// are tested before a value is looked at, the values are those that the variables have at entry, of two with
/// one name the first counts, and variables are removed last.
///
/// The process ends with 100 where a directive is refused as its own program is, behind a message with this
/// program's name.
///
/// The rule is execline's (https://skarnet.org/software/execline/multisubstitute.html), without elglob; that
/// of two values with one name the first counts is this project's own.
pub fn multisubstitute<W: World>(
    alloc: Global,
    front: Front,
    proc: &mut Proc,
    world: &mut W,
) -> Result<(), Finish>
    requires { are_usable (W.seen world.old).held proc.old.fds ≡ true }
    ensures { Acts (W.seen world.old) (W.seen world.new) multisubstitute (read_of front) proc.old proc.new result }
{
    let (directives, rest) = front.into_directives();
    put_values(alloc, Prog::Multisubstitute, &directives, rest, proc, world)
}
