//! fdmove [-c] to from prog..
#![tactic(auto, using(el_front::proofs::Rooms::rooms), unfolding(el_front::specs::Steps::acting, crate::specs::Fdmove::fdmove))]

ghost use Rattle.el_room.specs.Vocabulary.{are_usable, held_in, lost_handles, handles_in, read_of, Acts, OnlyToRefuse};
ghost use Rattle.std.specs.Prelude.{◌≡◌, ◌<◌, true, is_ok, is_some, IfOk, IfErr};
ghost use Rattle.el_redir.specs.Fdmove.{moved_by, fdmove};

use crate::numbers::{Numbers, not_open, read_numbers};
use el_proc::FdFault;
use el_room::{Fds, Finish, Front, Handle, Nth, Proc, Prog, Trouble, World, close_lost, refused};
use std::alloc::Global;

/// The first number takes the handle of the second, which then holds nothing, and the process goes on with
/// the rest. What the first held is closed, if the world gave it and no other number holds it. With equal
/// numbers nothing changes. With `-c` the second number keeps its handle.
///
/// The process ends with 100 where a word is no number or is 64 or more, and with 111 where the second number
/// holds nothing, each behind a message. It takes memory for a message alone.
///
/// The rule is execline's (https://skarnet.org/software/execline/fdmove.html); that the numbers end at 63 is
/// this project's own.
pub fn fdmove<W: World>(
    alloc: Global,
    front: Front,
    proc: &mut Proc,
    world: &mut W,
) -> Result<(), Finish>
    requires { are_usable (W.seen world.old).held proc.old.fds ≡ true }
    ensures acts { Acts (W.seen world.old) (W.seen world.new) fdmove (read_of front) proc.old proc.new result }
    ensures memory { OnlyToRefuse Prog.Fdmove fdmove (read_of front) proc.old result }
{
    let numbers = read_numbers(alloc, proc, Prog::Fdmove, &front, world)?;
    match change(&front, &mut proc.fds, numbers) {
        Ok(lost) => {
            close_lost(&proc.fds, lost, world);
            proc.words = front.into_rest();
            Ok(())
        }
        Err(_) => {
            let subject = not_open(front.text(Nth::Second));
            Err(refused(
                alloc,
                &proc.fds,
                Prog::Fdmove,
                Trouble::NotOpen,
                Some(subject),
                world,
            ))
        }
    }
}

// The answer is the handle to close.
fn change(front: &Front, fds: &mut Fds, numbers: Numbers) -> Result<Option<Handle>, FdFault>
    requires one { numbers.one < 64 }
    requires other { numbers.other < 64 }
    ensures answer { is_ok result ≡ is_some (held_in fds.old numbers.other) }
    ensures fds { IfOk result (λ _. fds.new ≡ moved_by (read_of front.now) fds.old numbers) }
    ensures lost { IfOk result (λ lost. lost_handles fds.old fds.new ≡ handles_in lost) }
    ensures same { IfErr result (λ _. fds.new ≡ fds.old) }
{
    if front.has(b'c') {
        fds.copy(numbers.one, numbers.other)
    } else {
        fds.move_to(numbers.one, numbers.other)
    }
}
