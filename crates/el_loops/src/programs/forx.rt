//! forx [-p] [-E] [-o codes | -x codes] var { values } prog..
#![tactic(auto, using(el_front::proofs::Rooms::rooms, crate::proofs::Breaks::breaks), unfolding(el_front::specs::Steps::acting, crate::specs::Forx::forx))]

ghost use Rattle.el_room.specs.Vocabulary.{are_usable, read_of, Acts};
ghost use Rattle.std.specs.Prelude.{◌≡◌, true};
ghost use Rattle.el_loops.specs.Forx.{forx};

use crate::turning::{Loop, Turns, begin, end_loop, make_turns};
use el_room::{Finish, Front, Nth, Proc, Prog, World};
use std::alloc::Global;

/// Runs the rest as a child for each word of the block, with the variable set to the word, or with `-E`
/// without it and with the word put in the rest as one word; the process's own variables stay. A command that
/// isn't found or can't be started counts as ended with 127 or 126, behind a message with its own name; the
/// code of a killed one is 128 and the signal. With `-x` a turn whose code is among those given there ends
/// the loop, with `-o` one whose code isn't; of these two the last counts. With `-p` the turns run beside one
/// another, and all are waited for behind the last start.
///
/// The process ends with the code of the turn that ended the loop, with `-p` of the first such turn in order
/// of start, or with 0 where there is none. It ends with 100 without a rest, and where no variable, or with
/// `-E` no reference, can have the name, and with 111 where a start or a wait fails, each behind a message.
/// It takes a unit before each turn; where none is left the answer is `Spent`.
///
/// The rule is execline's (https://skarnet.org/software/execline/forx.html); the status with `-p`, and that
/// with `-E` the variable is removed, are this project's own.
pub fn forx<W: World>(
    alloc: Global,
    front: Front,
    proc: &mut Proc,
    world: &mut W,
) -> Result<(), Finish>
    requires { are_usable (W.seen world.old).held proc.old.fds ≡ true }
    ensures { Acts (W.seen world.old) (W.seen world.new) forx (read_of front) proc.old proc.new result }
{
    let rest = front.rest()?;
    let each = Loop {
        program: Prog::Forx,
        front: &front,
        rest: &rest,
        streams: proc.fds.streams(),
        input: None,
        reader: None,
    };
    begin(alloc, &each, proc, world)?;
    let values = front.block(alloc, Nth::First)?;
    let mut all = Turns::new(alloc, &front, &proc.env)?;
    make_turns(alloc, &each, &values, &mut all, proc, world)?;
    Err(end_loop(alloc, &each, &all.made, proc, world))
}
