//! piperw r w prog..
#![tactic(auto, using(el_front::proofs::Rooms::rooms), unfolding(el_front::specs::Steps::acting, crate::specs::Piperw::piperw))]

ghost use Rattle.el_room.specs.Vocabulary.{is_usable, are_usable, Follows, pipe_act, Done, ok_value, is_at_some, state_of, left_of, read_of, Acts};
ghost use Rattle.std.specs.Prelude.{◌≡◌, ◌<◌, ◌==◌, true, false, length, IfOk};
ghost use Rattle.el_redir.specs.Piperw.{piperw};

use crate::numbers::{Numbers, read_numbers};
use crate::putting::put_handle;
use el_room::{
    Fault, Fds, Finish, Front, NoMemory, PipeEnds, Proc, Prog, Trouble, World, call, refused,
};
use std::alloc::Global;

/// The first number takes the reader of a new pipe, and then the second one the writer, and the process goes
/// on with the rest. What each held is closed, if the world gave it and no other number holds it.
///
/// The process ends with 100 where a word is no number or is 64 or more, and where the numbers are equal, and
/// with 111 where there is no pipe, each behind a message.
///
/// The rule is execline's (https://skarnet.org/software/execline/piperw.html); that the numbers end at 63 is
/// this project's own.
pub fn piperw<W: World>(
    alloc: Global,
    front: Front,
    proc: &mut Proc,
    world: &mut W,
) -> Result<(), Finish>
    requires { are_usable (W.seen world.old).held proc.old.fds ≡ true }
    ensures { Acts (W.seen world.old) (W.seen world.new) piperw (read_of front) proc.old proc.new result }
{
    let numbers = read_numbers(alloc, proc, Prog::Piperw, &front, world)?;
    if are_same(numbers) {
        return Err(refused(alloc, &proc.fds, Prog::Piperw, Trouble::Usage, None, world));
    }
    match pipe(&proc.fds, world)? {
        Ok(ends) => {
            put_handle(&mut proc.fds, numbers.one, ends.reader, world);
            put_handle(&mut proc.fds, numbers.other, ends.writer, world);
            proc.words = front.into_rest();
            Ok(())
        }
        Err(_) => Err(refused(alloc, &proc.fds, Prog::Piperw, Trouble::Failed, None, world)),
    }
}

fn are_same(numbers: Numbers) -> bool
    ensures { result ≡ (numbers.one == numbers.other) }
{
    numbers.one == numbers.other
}

// The writer is at none of the numbers.
#[tactic(auto, using(el_proc::proofs::Changes::given))]
fn pipe<W: World>(fds: &Fds, world: &mut W) -> Result<Result<PipeEnds, Fault>, NoMemory>
    requires { are_usable (W.seen world.old).held fds.now ≡ true }
    ensures run { Done (W.seen world.old) (W.seen world.new) pipe_act (ok_value result) }
    ensures usable { are_usable (W.seen world.new).held fds.now ≡ true }
    ensures reader { IfOk result (λ answer. IfOk answer (λ ends. is_usable (W.seen world.new).held ends.reader ≡ true)) }
    ensures writer { IfOk result (λ answer. IfOk answer (λ ends. is_usable (W.seen world.new).held ends.writer ≡ true)) }
    ensures apart { IfOk result (λ answer. IfOk answer (λ ends. is_at_some fds.now ends.writer ≡ false)) }
{
    call::pipe(world)
}
