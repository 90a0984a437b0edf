//! envfile [-i|-I] file prog..
#![tactic(auto, using(el_front::proofs::Rooms::rooms), unfolding(el_front::specs::Steps::acting, crate::specs::Envfile::envfile))]

ghost use Rattle.el_room.specs.Vocabulary.{is_held, are_usable, Follows, open_act, Done, ok_value, Mode, is_at_some, state_of, left_of, the_text, read_of, Acts, onward, First};
ghost use Rattle.std.specs.Prelude.{◌≡◌, ◌<◌, true, false, length, IfOk};
ghost use Rattle.el_vars.specs.Envfile.{after_read, opened, envfile};

use crate::lines::{are_good_lines, bad_line, set_lines};
use el_room::{
    Bytes, Fault, Finish, Front, Handle, Mode, NoMemory, Nth, Proc, Prog, Trouble, World, call,
    close_handle, gather, refused, text_or_end,
};
use std::alloc::Global;

/// Sets the variables of a file's lines, in their order, and the process goes on with the rest. A line is a
/// name, `=` and the value; an empty one and one that begins with `#` are skipped. With `-I` the process goes
/// on with nothing changed where the file isn't opened; of `-i` and `-I` the last counts.
///
/// The process ends with 100 where a line is bad, and with 111 where the file isn't opened or a read fails,
/// each behind a message; no variable is set then. It takes a unit before each read; where none is left the
/// answer is `Spent`.
///
/// The rule is execline's (https://skarnet.org/software/execline/envfile.html); how a line is read, and that
/// `-I` goes on where the file is there and isn't opened, are this project's own.
pub fn envfile<W: World>(
    alloc: Global,
    front: Front,
    proc: &mut Proc,
    world: &mut W,
) -> Result<(), Finish>
    requires { are_usable (W.seen world.old).held proc.old.fds ≡ true }
    ensures { Acts (W.seen world.old) (W.seen world.new) envfile (read_of front) proc.old proc.new result }
{
    match open(alloc, proc, &front, world)? {
        Ok(handle) => {
            set_from(alloc, front.text(Nth::First), handle, proc, world)?;
            proc.words = front.into_rest();
            Ok(())
        }
        Err(_) if front.has(b'I') => {
            proc.words = front.into_rest();
            Ok(())
        }
        Err(_) => Err(refused(
            alloc,
            &proc.fds,
            Prog::Envfile,
            Trouble::Failed,
            None,
            world,
        )),
    }
}

// Opens the file for reading from the process's directory.
#[tactic(auto, using(el_world::proofs::Runs::acts, el_proc::proofs::Opening::opening))]
fn open<W: World>(
    alloc: Global,
    proc: &Proc,
    front: &Front,
    world: &mut W,
) -> Result<Result<Handle, Fault>, NoMemory>
    requires { are_usable (W.seen world.old).held proc.now.fds ≡ true }
    ensures run { Done (W.seen world.old) (W.seen world.new) (open_act proc.now.dir (the_text First (read_of front.now)) Mode.Read) (ok_value result) }
    ensures usable { are_usable (W.seen world.new).held proc.now.fds ≡ true }
    ensures given { IfOk result (λ answer. IfOk answer (λ handle. is_held (W.seen world.new).held handle ≡ true)) }
    ensures apart { IfOk result (λ answer. IfOk answer (λ handle. is_at_some proc.now.fds handle ≡ false)) }
{
    let path = front.word(alloc, Nth::First)?;
    call::open_file(&proc.dir, &path, Mode::Read, world)
}

// Reads a file that is open to its end, closes it, and sets the variables of its lines.
#[tactic(auto, using(el_front::proofs::Rooms::rooms), unfolding(crate::specs::Envfile::opened))]
fn set_from<W: World>(
    alloc: Global,
    path: &[u8],
    handle: Handle,
    proc: &mut Proc,
    world: &mut W,
) -> Result<(), Finish>
    requires usable { are_usable (W.seen world.old).held proc.old.fds ≡ true }
    requires held { is_held (W.seen world.old).held handle ≡ true }
    requires apart { is_at_some proc.old.fds handle ≡ false }
    ensures run { Follows (W.seen world.old) (W.seen world.new) (opened (state_of proc.old) handle) proc.old.budget result (λ _. onward (state_of proc.new)) (state_of proc.new) proc.new.budget }
    ensures usable { are_usable (W.seen world.new).held proc.new.fds ≡ true }
{
    let text = text_or_end(gather(alloc, proc, handle, world))?;
    close_handle(&proc.fds, handle, world);
    set_read(alloc, path, text, proc, world)
}

// Sets the variables of what was read.
fn set_read<W: World>(
    alloc: Global,
    path: &[u8],
    text: Option<Bytes>,
    proc: &mut Proc,
    world: &mut W,
) -> Result<(), Finish>
    requires { are_usable (W.seen world.old).held proc.old.fds ≡ true }
    ensures run { Follows (W.seen world.old) (W.seen world.new) (after_read (state_of proc.old) text) proc.old.budget result (λ _. onward (state_of proc.new)) (state_of proc.new) proc.new.budget }
    ensures usable { are_usable (W.seen world.new).held proc.new.fds ≡ true }
{
    let Some(text) = text else {
        return Err(refused(
            alloc,
            &proc.fds,
            Prog::Envfile,
            Trouble::Failed,
            None,
            world,
        ));
    };
    if !are_good_lines(text.as_bytes()) {
        let subject = bad_line(path, text.as_bytes());
        return Err(refused(
            alloc,
            &proc.fds,
            Prog::Envfile,
            Trouble::BadLine,
            subject,
            world,
        ));
    }
    set_lines(alloc, text.as_bytes(), &mut proc.env)?;
    Ok(())
}
