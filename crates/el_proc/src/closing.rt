//! Closing handles that the world gave.
ghost use Rattle.std.specs.Prelude.{◌≡◌, true, false, Some, IfSome};
ghost use Rattle.el_world.specs.Handles.{is_held, are_usable, without};
ghost use Rattle.el_world.specs.Acts.{close_act};
ghost use Rattle.el_world.specs.Runs.{Done};
ghost use Rattle.el_proc.specs.Descriptors.{given_handles, without_given, is_at_some, handles_in, held_behind, closing};

use crate::descriptors::Fds;
use el_world::{Handle, World, call};

/// Closes the handles that the world gave, the one at the lowest number first, and takes them out of the
/// numbers.
pub fn close_given<W: World>(fds: &mut Fds, world: &mut W)
    requires { are_usable (W.seen world.old).held fds.old ≡ true }
    ensures run { Done (W.seen world.old) (W.seen world.new) (closing (given_handles fds.old)) (Some tt) }
    ensures fds { fds.new ≡ without_given fds.old }
    ensures usable { are_usable (W.seen world.new).held fds.new ≡ true }
{
    'handles: while let Some(handle) = fds.take_given() {
        call::close(handle, world);
    }
}

/// Closes the handle that a change of the numbers took out of its last one, if there is one.
#[tactic(auto, using(el_world::proofs::Runs::acts), unfolding(crate::specs::Descriptors::closing))]
pub fn close_lost<W: World>(fds: &Fds, lost: Option<Handle>, world: &mut W)
    requires usable { are_usable (W.seen world.old).held fds.now ≡ true }
    requires held { IfSome lost (λ handle. is_held (W.seen world.old).held handle ≡ true) }
    requires gone { IfSome lost (λ handle. is_at_some fds.now handle ≡ false) }
    ensures run { Done (W.seen world.old) (W.seen world.new) (closing (handles_in lost)) (Some tt) }
    ensures held { (W.seen world.new).held ≡ held_behind (W.seen world.old).held lost }
    ensures usable { are_usable (W.seen world.new).held fds.now ≡ true }
{
    if let Some(handle) = lost {
        call::close(handle, world);
    }
}

/// Closes a handle that the world gave and no number holds.
pub fn close_handle<W: World>(fds: &Fds, handle: Handle, world: &mut W)
    requires usable { are_usable (W.seen world.old).held fds.now ≡ true }
    requires held { is_held (W.seen world.old).held handle ≡ true }
    requires apart { is_at_some fds.now handle ≡ false }
    ensures run { Done (W.seen world.old) (W.seen world.new) (close_act handle) (Some tt) }
    ensures held { (W.seen world.new).held ≡ without (W.seen world.old).held handle }
    ensures usable { are_usable (W.seen world.new).held fds.now ≡ true }
{
    call::close(handle, world);
}
