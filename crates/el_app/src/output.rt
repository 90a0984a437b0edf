//! What a tool writes to its output.
#![tactic(auto, using(el_world::proofs::Follows::stops), unfolding(crate::specs::Output::put_out))]

ghost use Rattle.el_room.specs.Vocabulary.{Follows, state_of};
ghost use Rattle.std.specs.Prelude.{◌≡◌, Err};
ghost use Rattle.el_app.specs.Output.{put_out};

use el_proc::{Proc, Trouble};
use el_words::NoMemory;
use el_world::{Finish, Handle, World, call};

// The process's own output, which number 1 holds at its start.
const OUTPUT: Handle = Handle { number: 1 };

/// Writes the text at once to the process's output, and ends the process with this status; with 111 where it
/// can't be written, without a message.
pub(crate) fn put_out<W: World>(text: &[u8], code: u8, proc: &Proc, world: &mut W) -> Finish
    ensures { Follows {A = ⊥} {B = ⊥} (W.seen world.old) (W.seen world.new) (put_out (state_of proc.now) text.now code) proc.now.budget (Err result) (λ never. never) (state_of proc.now) proc.now.budget }
{
    match call::write(OUTPUT, text, world) {
        Ok(Ok(())) => Finish::Status(code),
        Ok(Err(_)) => Finish::Status(Trouble::Failed.status()),
        Err(NoMemory) => Finish::NoMemory,
    }
}
