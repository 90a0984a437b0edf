//! heredoc fd text prog..
#![tactic(auto, using(el_front::proofs::Rooms::rooms), unfolding(el_front::specs::Steps::acting, crate::specs::Heredoc::heredoc))]

ghost use Rattle.el_room.specs.Vocabulary.{is_usable, are_usable, Follows, feed_act, Done, ok_value, state_of, left_of, the_text, read_of, Acts, Second};
ghost use Rattle.std.specs.Prelude.{◌≡◌, ◌<◌, true, length, IfOk};
ghost use Rattle.el_redir.specs.Heredoc.{heredoc};

use crate::numbers::read_number;
use crate::putting::put_handle;
use el_room::{
    Fault, Finish, Front, Handle, NoMemory, Nth, Proc, Prog, Trouble, World, call, refused,
};
use std::alloc::Global;

/// The number takes a handle from which the text can be read, and the process goes on with the rest. What it
/// held is closed, if the world gave it and no other number holds it.
///
/// The process ends with 100 where the first word is no number or is 64 or more, and with 111 where the world
/// gives no such handle, each behind a message.
///
/// The rule is execline's (https://skarnet.org/software/execline/heredoc.html), without `-d`; that no process
/// feeds the text, and that the numbers end at 63, are this project's own.
pub fn heredoc<W: World>(
    alloc: Global,
    front: Front,
    proc: &mut Proc,
    world: &mut W,
) -> Result<(), Finish>
    requires { are_usable (W.seen world.old).held proc.old.fds ≡ true }
    ensures { Acts (W.seen world.old) (W.seen world.new) heredoc (read_of front) proc.old proc.new result }
{
    let number = read_number(alloc, proc, Prog::Heredoc, &front, world)?;
    match feed(proc, &front, world)? {
        Ok(handle) => {
            put_handle(&mut proc.fds, number, handle, world);
            proc.words = front.into_rest();
            Ok(())
        }
        Err(_) => Err(refused(
            alloc,
            &proc.fds,
            Prog::Heredoc,
            Trouble::Failed,
            None,
            world,
        )),
    }
}

#[tactic(auto, using(el_proc::proofs::Changes::given))]
fn feed<W: World>(
    proc: &Proc,
    front: &Front,
    world: &mut W,
) -> Result<Result<Handle, Fault>, NoMemory>
    requires { are_usable (W.seen world.old).held proc.now.fds ≡ true }
    ensures run { Done (W.seen world.old) (W.seen world.new) (feed_act (the_text Second (read_of front.now))) (ok_value result) }
    ensures usable { are_usable (W.seen world.new).held proc.now.fds ≡ true }
    ensures given { IfOk result (λ answer. IfOk answer (λ handle. is_usable (W.seen world.new).held handle ≡ true)) }
{
    call::feed(front.text(Nth::Second), world)
}
