//! How elglob ends that refuses.
#![tactic(auto, using(el_world::proofs::Follows::stops, el_world::proofs::Runs::acts, el_proc::proofs::Refusals::refusals, el_proc::proofs::Usable::usable), unfolding(crate::specs::Elglob::refusing, crate::specs::Elglob::bad_pattern_complaint))]

ghost use Rattle.std.specs.Prelude.{◌≡◌, true, Err};
ghost use Rattle.el_world.specs.Handles.{are_usable};
ghost use Rattle.el_world.specs.Follows.{Follows};
ghost use Rattle.el_world.specs.Runs.{Done, ok_value};
ghost use Rattle.el_proc.specs.Processes.{state_of};
ghost use Rattle.el_glob.specs.Elglob.{elglob_name, bad_pattern_message, bad_pattern_complaint, refusing};

use el_proc::{Fds, Proc, Trouble, WRONG_USE, refused_as};
use el_words::NoMemory;
use el_world::{Finish, World, call};
use std::alloc::Global;

/// What elglob complains of before anything is listed.
#[derive(Clone, Copy, PartialEq, Eq)]
pub enum Refusal {
    /// What other programs complain of too.
    Common(Trouble),
    /// A word is no pattern.
    BadPattern,
}

/// The end of elglob behind a message.
pub(crate) fn refuse<W: World>(
    alloc: Global,
    proc: &Proc,
    refusal: Refusal,
    world: &mut W,
) -> Finish
    requires { are_usable (W.seen world.old).held proc.now.fds ≡ true }
    ensures { Follows {A = ⊥} {B = ⊥} (W.seen world.old) (W.seen world.new) (refusing (state_of proc.now) refusal) proc.now.budget (Err result) (λ never. never) (state_of proc.now) proc.now.budget }
{
    match refusal {
        Refusal::Common(trouble) => refused_as(
            alloc,
            &proc.fds,
            elglob_name(),
            trouble,
            None,
            world,
        ),
        Refusal::BadPattern => match tell_bad_pattern(&proc.fds, world) {
            Ok(()) => Finish::Status(WRONG_USE),
            Err(NoMemory) => Finish::NoMemory,
        },
    }
}

// Writes that a word is no pattern to what number 2 holds, where it holds something. A failed write changes
// nothing.
#[tactic(auto, using(el_world::proofs::Runs::acts, el_proc::proofs::Usable::usable), unfolding(crate::specs::Elglob::bad_pattern_complaint))]
fn tell_bad_pattern<W: World>(fds: &Fds, world: &mut W) -> Result<(), NoMemory>
    requires { are_usable (W.seen world.old).held fds.now ≡ true }
    ensures { Done (W.seen world.old) (W.seen world.new) (bad_pattern_complaint fds.now) (ok_value result) }
{
    if let Some(handle) = fds.messages() {
        let _ = call::write(handle, bad_pattern_message(), world)?;
    }
    Ok(())
}

/// The program's name.
#[tactic(auto, unfolding(crate::specs::Elglob::elglob_name))]
pub(crate) fn elglob_name() -> &'static [u8]
    ensures { result.now ≡ elglob_name }
{
    b"elglob"
}

#[tactic(auto, unfolding(crate::specs::Elglob::bad_pattern_message))]
fn bad_pattern_message() -> &'static [u8]
    ensures { result.now ≡ bad_pattern_message }
{
    b"elglob: bad pattern\n"
}
