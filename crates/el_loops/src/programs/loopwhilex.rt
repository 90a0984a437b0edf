//! loopwhilex [-n] [-x codes] prog..
#![tactic(auto, using(el_front::proofs::Rooms::rooms), unfolding(el_front::specs::Steps::acting, crate::specs::Loopwhilex::loopwhilex))]

ghost use Rattle.el_room.specs.Vocabulary.{are_usable, Follows, most_units, state_of, read_of, Acts, onward};
ghost use Rattle.std.specs.Prelude.{◌≡◌, true};
ghost use Rattle.el_loops.specs.Loopwhilex.{goes_on_behind, repeating, loopwhilex};

use crate::codes::is_listed;
use crate::turning::need_words;
use el_room::{Finish, Front, Proc, Prog, Words, World, code_of, run_own_child, take_unit};
use std::alloc::Global;

/// Runs the rest as a child again and again, while it ends with 0. A command that isn't found or can't be
/// started counts as ended with 127 or 126, behind a message with its own name; the code of a killed one is
/// 128 and the signal. With `-n` it is repeated while it ends otherwise than with 0. With `-x` a turn whose
/// code is among those given there is the last.
///
/// The process ends with the last turn's code. It ends with 100 without a rest, and with 111 where a start or
/// a wait fails, each behind a message. It takes a unit before each turn; where none is left the answer is
/// `Spent`.
///
/// The rule is execline's (https://skarnet.org/software/execline/loopwhilex.html), without `-o`; that `-x`
/// adds to what ends the loop is this project's own.
pub fn loopwhilex<W: World>(
    alloc: Global,
    front: Front,
    proc: &mut Proc,
    world: &mut W,
) -> Result<(), Finish>
    requires { are_usable (W.seen world.old).held proc.old.fds ≡ true }
    ensures { Acts (W.seen world.old) (W.seen world.new) loopwhilex (read_of front) proc.old proc.new result }
{
    let rest = front.rest()?;
    need_words(alloc, proc, Prog::Loopwhilex, &rest, world)?;
    repeat(alloc, &front, &rest, proc, world)?;
    proc.words = rest;
    Ok(())
}

// Turn after turn, until one is the last. It always ends the process.
#[tactic(auto)]
fn repeat<W: World>(
    alloc: Global,
    front: &Front,
    rest: &Words,
    proc: &mut Proc,
    world: &mut W,
) -> Result<(), Finish>
    requires usable { are_usable (W.seen world.old).held proc.old.fds ≡ true }
    requires rest { rest.now ≡ (read_of front.now).rest }
    ensures run { Follows (W.seen world.old) (W.seen world.new) (repeating most_units (read_of front.now) (state_of proc.old)) proc.old.budget result (λ _. onward (state_of proc.new)) (state_of proc.new) proc.new.budget }
    ensures usable { are_usable (W.seen world.new).held proc.new.fds ≡ true }
{
    // Named for its range alone: no budget has as many units as the bound on turns.
    let _units = proc.budget;
    'turns: loop {
        if !take_unit(proc) {
            return Err(Finish::Spent);
        }
        let ended = run_own_child(alloc, proc, Prog::Loopwhilex, rest, world)?;
        let code = code_of(ended);
        if !goes_on_behind(front, code) {
            return Err(Finish::Status(code));
        }
    }
}

// Whether there is one more turn behind a turn with this code.
fn goes_on_behind(front: &Front, code: u8) -> bool
    ensures { result ≡ goes_on_behind (read_of front.now) code }
{
    let is_repeated = if front.has(b'n') {
        code != 0
    } else {
        code == 0
    };
    is_repeated && !is_listed(front, b'x', code)
}
