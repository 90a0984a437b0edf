//! exit [n] ..
#![tactic(auto, using(el_front::proofs::Rooms::rooms), unfolding(el_front::specs::Steps::acting, crate::specs::Exit::exit))]

ghost use Rattle.el_room.specs.Vocabulary.{are_usable, text_at, read_of, Acts, OnlyToRefuse, First};
ghost use Rattle.std.specs.Prelude.{◌≡◌, true};
ghost use Rattle.el_control.specs.Exit.{exit_code, exit};

use crate::endings::code_named;
use el_room::{Finish, Front, Nth, Proc, Prog, Subject, Trouble, World, refused};
use std::alloc::Global;

/// Ends the process with the number that the word names, or with 0 without a word. Further words aren't
/// looked at.
///
/// The process ends with 100 where the word is no number up to 255, behind a message. It takes memory for a
/// message alone.
///
/// The rule is execline's (https://skarnet.org/software/execline/exit.html); that a number above 255 is
/// refused is this project's own.
pub fn exit<W: World>(
    alloc: Global,
    front: Front,
    proc: &mut Proc,
    world: &mut W,
) -> Result<(), Finish>
    requires { are_usable (W.seen world.old).held proc.old.fds ≡ true }
    ensures acts { Acts (W.seen world.old) (W.seen world.new) exit (read_of front) proc.old proc.new result }
    ensures memory { OnlyToRefuse Prog.Exit exit (read_of front) proc.old result }
{
    match exit_code(&front) {
        Some(code) => Err(Finish::Status(code)),
        None => {
            let word = front.text(Nth::First);
            let subject = Subject::of(b"status", word).with_note(b"a number up to 255 is wanted");
            Err(refused(
                alloc,
                &proc.fds,
                Prog::Exit,
                Trouble::BadNumber,
                Some(subject),
                world,
            ))
        }
    }
}

fn exit_code(front: &Front) -> Option<u8>
    ensures { result ≡ exit_code (text_at First (read_of front.now)) }
{
    match front.optional_text(Nth::First) {
        Some(word) => code_named(word),
        None => Some(0),
    }
}
