//! How a tool ends that refuses.
ghost use Rattle.el_room.specs.Vocabulary.{standard_fds, Refuses};
ghost use Rattle.std.specs.Prelude.{◌≡◌};

use el_proc::{Proc, Trouble, refused_as};
use el_world::{Finish, Subject, World};
use std::alloc::Global;

/// The end of a process after a message under a tool's name. `subject` is what the message is about, if there is more to
/// say than the message does.
#[tactic(auto, using(crate::proofs::Standard::standard))]
pub(crate) fn refused<W: World>(
    alloc: Global,
    name: &[u8],
    proc: &Proc,
    trouble: Trouble,
    subject: Option<Subject<'_>>,
    world: &mut W,
) -> Finish
    requires { proc.now.fds ≡ standard_fds }
    ensures run { Refuses (W.seen world.old) (W.seen world.new) proc.now.fds name.now trouble result }
    ensures held { (W.seen world.new).held ≡ (W.seen world.old).held }
{
    refused_as(alloc, &proc.fds, name, trouble, subject, world)
}
