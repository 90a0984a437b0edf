//! forbacktickx [-p] [-E] [-o codes | -x codes] [-C] [-d delimiters] var { gen } prog..
#![tactic(auto, using(el_front::proofs::Rooms::rooms, crate::proofs::Breaks::breaks), unfolding(el_front::specs::Steps::acting, crate::specs::Forbacktickx::forbacktickx))]

ghost use Rattle.el_room.specs.Vocabulary.{are_usable, Follows, state_of, read_of, Acts};
ghost use Rattle.std.specs.Prelude.{◌≡◌, true, IsTrue};
ghost use Rattle.el_pipes.specs.Pipes.{IsLoose};
ghost use Rattle.el_pipes.specs.Putting.{names_well};
ghost use Rattle.el_loops.specs.Forbacktickx.{waited_for, over_reader, over_pipe, over_block, forbacktickx};

use crate::turn::Turn;
use crate::turning::{Loop, Turns, begin, end_loop};
use crate::values::turns_over;
use el_pipes::{Side, close_end, close_ends, make_pipe, start_at};
use el_room::{
    Finish, Front, Nth, Pid, PipeEnds, Proc, Prog, Trouble, Words, World, call, close_handle,
    refused, tell_unstarted,
};
use std::alloc::Global;

/// Runs the rest as a child for each value that the block writes, with the variable set to the value, once
/// its delimiter was read, and at the end for the bytes that are left. Then the block is waited for, and its
/// end has no effect; a turn that ends the loop closes the reader, and the block isn't waited for. An empty
/// block starts nothing and gives no values, and one whose command isn't found or can't be started gives none
/// either, behind a message with its own name. With `-E` the value is put in the rest, as in `forx`. The
/// codes of turns, and how they end the loop with `-x`, `-o` and `-p`, are as in `forx`. `-C` keeps the first
/// of each run of delimiters, and `-d` names them in place of space, newline, carriage return and tab.
///
/// The process ends with the code of the turn that ended the loop, with `-p` of the first such turn in order
/// of start, or with 0 where there is none. It ends with 100 without a rest, where no variable, or with `-E`
/// no reference, can have the name, and where it comes to a NUL, and with 111 where there is no pipe, and
/// where a start, a read or a wait fails, each behind a message. It takes a unit before each read and before
/// each turn; where none is left the answer is `Spent`.
///
/// The rule is execline's (https://skarnet.org/software/execline/forbacktickx.html), without `-0`, `-N`, `-n`
/// and `-c`; the usual delimiters, and the turn for the bytes that are left, are this project's own.
pub fn forbacktickx<W: World>(
    alloc: Global,
    front: Front,
    proc: &mut Proc,
    world: &mut W,
) -> Result<(), Finish>
    requires { are_usable (W.seen world.old).held proc.old.fds ≡ true }
    ensures { Acts (W.seen world.old) (W.seen world.new) forbacktickx (read_of front) proc.old proc.new result }
{
    let rest = front.rest()?;
    let each = Loop {
        program: Prog::Forbacktickx,
        front: &front,
        rest: &rest,
        streams: proc.fds.streams(),
        input: None,
        reader: None,
    };
    begin(alloc, &each, proc, world)?;
    let block = front.block(alloc, Nth::First)?;
    let made = turns_over_block(alloc, &front, &rest, &block, proc, world)?;
    Err(end_loop(alloc, &each, &made, proc, world))
}

// The turns for the values that the block writes. Without words no call is made.
#[tactic(auto, using(el_front::proofs::Rooms::rooms), unfolding(crate::specs::Forbacktickx::over_block))]
fn turns_over_block<W: World>(
    alloc: Global,
    front: &Front,
    rest: &Words,
    block: &Words,
    proc: &mut Proc,
    world: &mut W,
) -> Result<Vec<Turn>, Finish>
    requires usable { are_usable (W.seen world.old).held proc.old.fds ≡ true }
    requires good { IsTrue (names_well (read_of front.now)) }
    requires rest { rest.now ≡ (read_of front.now).rest }
    ensures run { Follows (W.seen world.old) (W.seen world.new) (over_block (read_of front.now) (state_of proc.old) block.now) proc.old.budget result (λ made. made.items) (state_of proc.new) proc.new.budget }
    ensures state { state_of proc.new ≡ state_of proc.old }
    ensures usable { are_usable (W.seen world.new).held proc.new.fds ≡ true }
{
    if block.is_empty() {
        return Ok(Vec::new(alloc));
    }
    turns_over_pipe(alloc, front, rest, block, proc, world)
}

// The same of a block that has words.
#[tactic(auto, using(el_front::proofs::Rooms::rooms), unfolding(crate::specs::Forbacktickx::over_pipe))]
fn turns_over_pipe<W: World>(
    alloc: Global,
    front: &Front,
    rest: &Words,
    block: &Words,
    proc: &mut Proc,
    world: &mut W,
) -> Result<Vec<Turn>, Finish>
    requires usable { are_usable (W.seen world.old).held proc.old.fds ≡ true }
    requires good { IsTrue (names_well (read_of front.now)) }
    requires rest { rest.now ≡ (read_of front.now).rest }
    ensures run { Follows (W.seen world.old) (W.seen world.new) (over_pipe (read_of front.now) (state_of proc.old) block.now) proc.old.budget result (λ made. made.items) (state_of proc.new) proc.new.budget }
    ensures state { state_of proc.new ≡ state_of proc.old }
    ensures usable { are_usable (W.seen world.new).held proc.new.fds ≡ true }
{
    let ends = make_pipe(alloc, proc, Prog::Forbacktickx, world)?;
    let started = start_at(
        alloc,
        proc,
        Prog::Forbacktickx,
        block,
        Side::Output,
        ends,
        world,
    )?;
    match started.pid() {
        Some(pid) => {
            close_end(&proc.fds, Side::Output, ends, world);
            turns_over_reader(alloc, front, rest, ends, pid, proc, world)
        }
        None => {
            close_ends(&proc.fds, ends, world);
            tell_unstarted(alloc, &proc.fds, block, started, world)?;
            Ok(Vec::new(alloc))
        }
    }
}

// The turns for what the generator writes; then the reader is closed, and the generator is waited for.
#[tactic(auto, using(el_front::proofs::Rooms::rooms), unfolding(crate::specs::Forbacktickx::over_reader))]
fn turns_over_reader<W: World>(
    alloc: Global,
    front: &Front,
    rest: &Words,
    ends: PipeEnds,
    generator: Pid,
    proc: &mut Proc,
    world: &mut W,
) -> Result<Vec<Turn>, Finish>
    requires usable { are_usable (W.seen world.old).held proc.old.fds ≡ true }
    requires good { IsTrue (names_well (read_of front.now)) }
    requires rest { rest.now ≡ (read_of front.now).rest }
    requires loose { IsLoose (W.seen world.old).held proc.old.fds ends.reader }
    ensures run { Follows (W.seen world.old) (W.seen world.new) (over_reader (read_of front.now) (state_of proc.old) ends.reader generator) proc.old.budget result (λ made. made.items) (state_of proc.new) proc.new.budget }
    ensures state { state_of proc.new ≡ state_of proc.old }
    ensures usable { are_usable (W.seen world.new).held proc.new.fds ≡ true }
{
    let each = Loop {
        program: Prog::Forbacktickx,
        front,
        rest,
        streams: proc.fds.streams(),
        input: Some(ends.reader),
        reader: Some(ends.reader),
    };
    let mut all = Turns::new(alloc, front, &proc.env)?;
    turns_over(alloc, &each, ends.reader, &mut all, proc, world)?;
    close_handle(&proc.fds, ends.reader, world);
    wait_for(alloc, generator, proc, world)?;
    Ok(all.made)
}

// The generator's end has no effect.
#[tactic(auto, using(el_front::proofs::Rooms::rooms), unfolding(crate::specs::Forbacktickx::waited_for))]
fn wait_for<W: World>(
    alloc: Global,
    generator: Pid,
    proc: &Proc,
    world: &mut W,
) -> Result<(), Finish>
    requires { are_usable (W.seen world.old).held proc.now.fds ≡ true }
    ensures run { Follows (W.seen world.old) (W.seen world.new) (waited_for (state_of proc.now) generator) proc.now.budget result (λ done. done) (state_of proc.now) proc.now.budget }
    ensures usable { are_usable (W.seen world.new).held proc.now.fds ≡ true }
{
    match call::wait(generator, world)? {
        Ok(_) => Ok(()),
        Err(_) => Err(refused(
            alloc,
            &proc.fds,
            Prog::Forbacktickx,
            Trouble::Failed,
            None,
            world,
        )),
    }
}
