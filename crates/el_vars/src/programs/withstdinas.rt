//! withstdinas [-n|-N] var prog..
#![tactic(auto, using(el_front::proofs::Rooms::rooms), unfolding(el_front::specs::Steps::acting, crate::specs::Withstdinas::value_read, crate::specs::Withstdinas::withstdinas))]

ghost use Rattle.el_room.specs.Vocabulary.{is_good_name, are_usable, Follows, state_of, left_of, the_text, read_of, Acts, First};
ghost use Rattle.std.specs.Prelude.{◌≡◌, ◌<◌, true, length, IsTrue, OnOk};
ghost use Rattle.std.specs.FinMap as map;
ghost use Rattle.el_vars.specs.Withstdinas.{value_read, withstdinas};

use el_room::{
    Env, Finish, Front, NoMemory, Nth, Proc, Prog, Trouble, Word, World, bad_name, closed_input,
    gather, input_word, is_good_name, refused, text_or_end,
};
use std::alloc::Global;

/// Reads number 0 to its end. The variable takes what was read, up to the first NUL and without one newline
/// at its end, and the process goes on with the rest. With `-N` the newline stays; of `-n` and `-N` the last
/// counts.
///
/// The process ends with 100 where no variable can have the name, and with 111 where number 0 holds nothing
/// or a read fails, each behind a message. It takes a unit before each read; where none is left the answer is
/// `Spent`.
///
/// The rule is execline's (https://skarnet.org/software/execline/withstdinas.html), without `-i`, `-I`, `-D`
/// and `-E`; that a NUL ends the value is this project's own.
pub fn withstdinas<W: World>(
    alloc: Global,
    front: Front,
    proc: &mut Proc,
    world: &mut W,
) -> Result<(), Finish>
    requires { are_usable (W.seen world.old).held proc.old.fds ≡ true }
    ensures { Acts (W.seen world.old) (W.seen world.new) withstdinas (read_of front) proc.old proc.new result }
{
    if !is_good_name(front.text(Nth::First)) {
        let subject = bad_name(front.text(Nth::First));
        return Err(refused(
            alloc,
            &proc.fds,
            Prog::Withstdinas,
            Trouble::BadName,
            Some(subject),
            world,
        ));
    }
    let value = read_value(alloc, front.has(b'N'), proc, world)?;
    set(alloc, &front, value, &mut proc.env)?;
    proc.words = front.into_rest();
    Ok(())
}

// The word of all that number 0 gives.
fn read_value<W: World>(
    alloc: Global,
    keeps: bool,
    proc: &mut Proc,
    world: &mut W,
) -> Result<Word, Finish>
    requires { are_usable (W.seen world.old).held proc.old.fds ≡ true }
    ensures run { Follows (W.seen world.old) (W.seen world.new) (value_read keeps (state_of proc.old)) proc.old.budget result (λ word. word) (state_of proc.new) proc.new.budget }
    ensures state { state_of proc.new ≡ state_of proc.old }
    ensures usable { are_usable (W.seen world.new).held proc.new.fds ≡ true }
{
    let Some(handle) = proc.fds.input() else {
        return Err(refused(
            alloc,
            &proc.fds,
            Prog::Withstdinas,
            Trouble::NotOpen,
            Some(closed_input()),
            world,
        ));
    };
    match text_or_end(gather(alloc, proc, handle, world))? {
        Some(text) => Ok(input_word(alloc, text.as_bytes(), keeps)?),
        None => Err(refused(
            alloc,
            &proc.fds,
            Prog::Withstdinas,
            Trouble::Failed,
            None,
            world,
        )),
    }
}

// Sets the variable that the word names.
fn set(alloc: Global, front: &Front, value: Word, env: &mut Env) -> Result<(), NoMemory>
    requires { IsTrue (is_good_name (the_text First (read_of front.now))) }
    ensures { OnOk result (env.new ≡ map.insert env.old (the_text First (read_of front.now)) value) }
{
    let name = front.word(alloc, Nth::First)?;
    env.insert(name.as_bytes(), value)
}
