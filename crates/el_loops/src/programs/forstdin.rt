//! forstdin [-p] [-E] [-o codes | -x codes] [-C] [-d delimiters] var prog..
#![tactic(auto, using(el_front::proofs::Rooms::rooms, crate::proofs::Breaks::breaks), unfolding(el_front::specs::Steps::acting, crate::specs::Forstdin::over_number, crate::specs::Forstdin::forstdin))]

ghost use Rattle.el_room.specs.Vocabulary.{are_usable, read_of, Acts};
ghost use Rattle.std.specs.Prelude.{◌≡◌, true};
ghost use Rattle.el_loops.specs.Forstdin.{forstdin};

use crate::turning::{Loop, Turns, begin, end_loop};
use crate::values::turns_over;
use el_room::{Finish, Front, Proc, Prog, Trouble, World, closed_input, refused};
use std::alloc::Global;

/// Runs the rest as a child for each value of number 0, with the variable set to the value, once its
/// delimiter was read, and at the end for the bytes that are left. The child finds nothing at number 0. With
/// `-E` the value is put in the rest, as in `forx`. The codes of turns, and how they end the loop with `-x`,
/// `-o` and `-p`, are as in `forx`. `-C` keeps the first of each run of delimiters, and `-d` names them in
/// place of space, newline, carriage return and tab.
///
/// The process ends with the code of the turn that ended the loop, with `-p` of the first such turn in order
/// of start, or with 0 where there is none. It ends with 100 without a rest, where no variable, or with `-E`
/// no reference, can have the name, and where it comes to a NUL, and with 111 where number 0 holds nothing,
/// and where a read, a start or a wait fails, each behind a message. It takes a unit before each read and
/// before each turn; where none is left the answer is `Spent`.
///
/// The rule is execline's (https://skarnet.org/software/execline/forstdin.html), without `-0`, `-N`, `-n` and
/// `-c`; the usual delimiters, the turn for the bytes that are left, the status 0 of an empty input, and that
/// the child finds nothing at number 0, are this project's own.
pub fn forstdin<W: World>(
    alloc: Global,
    front: Front,
    proc: &mut Proc,
    world: &mut W,
) -> Result<(), Finish>
    requires { are_usable (W.seen world.old).held proc.old.fds ≡ true }
    ensures { Acts (W.seen world.old) (W.seen world.new) forstdin (read_of front) proc.old proc.new result }
{
    let rest = front.rest()?;
    let mut streams = proc.fds.streams();
    streams[0] = None;
    let each = Loop {
        program: Prog::Forstdin,
        front: &front,
        rest: &rest,
        streams,
        input: proc.fds.input(),
        reader: None,
    };
    begin(alloc, &each, proc, world)?;
    let Some(handle) = each.input else {
        return Err(refused(
            alloc,
            &proc.fds,
            Prog::Forstdin,
            Trouble::NotOpen,
            Some(closed_input()),
            world,
        ));
    };
    let mut all = Turns::new(alloc, &front, &proc.env)?;
    turns_over(alloc, &each, handle, &mut all, proc, world)?;
    Err(end_loop(alloc, &each, &all.made, proc, world))
}
