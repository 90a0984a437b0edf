//! export var value prog..
#![tactic(auto, using(el_front::proofs::Rooms::rooms), unfolding(el_front::specs::Steps::acting, crate::specs::Export::export))]

ghost use Rattle.el_room.specs.Vocabulary.{is_good_name, are_usable, Follows, state_of, left_of, the_text, read_of, Acts, First};
ghost use Rattle.std.specs.Prelude.{◌≡◌, ◌<◌, true, length, IsTrue, OnOk};
ghost use Rattle.el_vars.specs.Export.{env_with, export};

use el_room::{
    Env, Finish, Front, NoMemory, Nth, Proc, Prog, Trouble, World, bad_name, is_good_name, refused,
};
use std::alloc::Global;

/// Sets the variable, and the process goes on with the rest.
///
/// The process ends with 100 where no variable can have the name, behind a message.
///
/// The rule is execline's (https://skarnet.org/software/execline/export.html).
pub fn export<W: World>(
    alloc: Global,
    front: Front,
    proc: &mut Proc,
    world: &mut W,
) -> Result<(), Finish>
    requires { are_usable (W.seen world.old).held proc.old.fds ≡ true }
    ensures { Acts (W.seen world.old) (W.seen world.new) export (read_of front) proc.old proc.new result }
{
    if !is_good_name(front.text(Nth::First)) {
        let subject = bad_name(front.text(Nth::First));
        return Err(refused(
            alloc,
            &proc.fds,
            Prog::Export,
            Trouble::BadName,
            Some(subject),
            world,
        ));
    }
    set(alloc, &front, &mut proc.env)?;
    proc.words = front.into_rest();
    Ok(())
}

// Sets the variable that the words name and give.
fn set(alloc: Global, front: &Front, env: &mut Env) -> Result<(), NoMemory>
    requires { IsTrue (is_good_name (the_text First (read_of front.now))) }
    ensures { OnOk result (env.new ≡ env_with (read_of front.now) env.old) }
{
    let name = front.word(alloc, Nth::First)?;
    let value = front.word(alloc, Nth::Second)?;
    env.insert(name.as_bytes(), value)
}
