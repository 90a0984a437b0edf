//! fdswap a b prog..
#![tactic(auto, using(el_front::proofs::Rooms::rooms), unfolding(el_front::specs::Steps::acting, crate::specs::Fdswap::fdswap))]

ghost use Rattle.el_room.specs.Vocabulary.{are_usable, held_in, swapped, read_of, Acts, OnlyToRefuse};
ghost use Rattle.std.specs.Prelude.{◌≡◌, ◌<◌, ◌&&◌, true, is_some, if◌then◌else◌};
ghost use Rattle.el_redir.specs.Fdswap.{fdswap};

use crate::numbers::{Numbers, not_open, read_numbers};
use el_room::{Fds, Finish, Front, Nth, Proc, Prog, Subject, Trouble, World, refused};
use std::alloc::Global;

/// The handles of the two numbers change places, and the process goes on with the rest.
///
/// The process ends with 100 where a word is no number or is 64 or more, and with 111 where one of the
/// numbers holds nothing, each behind a message. It takes memory for a message alone.
///
/// The rule is execline's (https://skarnet.org/software/execline/fdswap.html); that the numbers end at 63 is
/// this project's own.
pub fn fdswap<W: World>(
    alloc: Global,
    front: Front,
    proc: &mut Proc,
    world: &mut W,
) -> Result<(), Finish>
    requires { are_usable (W.seen world.old).held proc.old.fds ≡ true }
    ensures acts { Acts (W.seen world.old) (W.seen world.new) fdswap (read_of front) proc.old proc.new result }
    ensures memory { OnlyToRefuse Prog.Fdswap fdswap (read_of front) proc.old result }
{
    let numbers = read_numbers(alloc, proc, Prog::Fdswap, &front, world)?;
    if swap_handles(&mut proc.fds, numbers) {
        proc.words = front.into_rest();
        Ok(())
    } else {
        let subject = empty_one(&proc.fds, numbers, &front);
        Err(refused(
            alloc,
            &proc.fds,
            Prog::Fdswap,
            Trouble::NotOpen,
            Some(subject),
            world,
        ))
    }
}

// What the message is about: the first number that holds nothing.
fn empty_one<'a>(fds: &Fds, numbers: Numbers, front: &'a Front) -> Subject<'a> {
    if fds.get(numbers.one) == Ok(None) {
        not_open(front.text(Nth::First))
    } else {
        not_open(front.text(Nth::Second))
    }
}

// Swaps the handles where both numbers hold one.
fn swap_handles(fds: &mut Fds, numbers: Numbers) -> bool
    requires one { numbers.one < 64 }
    requires other { numbers.other < 64 }
    ensures answer { result ≡ (is_some (held_in fds.old numbers.one) && is_some (held_in fds.old numbers.other)) }
    ensures fds { fds.new ≡ (if result then swapped fds.old numbers.one numbers.other else fds.old) }
{
    fds.swap(numbers.one, numbers.other).is_ok()
}
