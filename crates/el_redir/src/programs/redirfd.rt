//! redirfd -r|-w|-u|-a|-c|-x fd file prog..
#![tactic(auto, using(el_front::proofs::Rooms::rooms), unfolding(el_front::specs::Steps::acting, crate::specs::Redirfd::redirfd))]

ghost use Rattle.el_room.specs.Vocabulary.{is_usable, are_usable, open_act, Done, ok_value, the_text, read_of, Acts, Second};
ghost use Rattle.std.specs.Prelude.{◌≡◌, true, IfOk};
ghost use Rattle.el_redir.specs.Redirfd.{mode_of, redirfd};

use crate::numbers::read_number;
use crate::putting::put_handle;
use el_room::{
    Fault, Finish, Front, Handle, Mode, NoMemory, Nth, Proc, Prog, Trouble, World, call, refused,
};
use std::alloc::Global;

/// The number takes the file, which is opened from the process's directory, and the process goes on with the
/// rest. What it held is closed, if the world gave it and no other number holds it. With `-r` the file is
/// read, with `-w` written, and created or cut to nothing, with `-u` read and written, with `-a` appended to,
/// and created where it is absent, with `-c` appended to where it is there, and with `-x` written where it is
/// absent. One of these letters must stand, and of several the last counts.
///
/// The process ends with 100 where the first word is no number or is 64 or more, and with 111 where the file
/// isn't opened, each behind a message.
///
/// The rule is execline's (https://skarnet.org/software/execline/redirfd.html), without `-n` and `-b`; `-c`,
/// and that the numbers end at 63, are this project's own.
pub fn redirfd<W: World>(
    alloc: Global,
    front: Front,
    proc: &mut Proc,
    world: &mut W,
) -> Result<(), Finish>
    requires { are_usable (W.seen world.old).held proc.old.fds ≡ true }
    ensures { Acts (W.seen world.old) (W.seen world.new) redirfd (read_of front) proc.old proc.new result }
{
    let number = read_number(alloc, proc, Prog::Redirfd, &front, world)?;
    match open(alloc, proc, &front, world)? {
        Ok(handle) => {
            put_handle(&mut proc.fds, number, handle, world);
            proc.words = front.into_rest();
            Ok(())
        }
        Err(_) => Err(refused(
            alloc,
            &proc.fds,
            Prog::Redirfd,
            Trouble::Failed,
            None,
            world,
        )),
    }
}

#[tactic(auto, using(el_world::proofs::Runs::acts, el_proc::proofs::Changes::given))]
fn open<W: World>(
    alloc: Global,
    proc: &Proc,
    front: &Front,
    world: &mut W,
) -> Result<Result<Handle, Fault>, NoMemory>
    requires { are_usable (W.seen world.old).held proc.now.fds ≡ true }
    ensures run { Done (W.seen world.old) (W.seen world.new) (open_act proc.now.dir (the_text Second (read_of front.now)) (mode_of (read_of front.now))) (ok_value result) }
    ensures usable { are_usable (W.seen world.new).held proc.now.fds ≡ true }
    ensures given { IfOk result (λ answer. IfOk answer (λ handle. is_usable (W.seen world.new).held handle ≡ true)) }
{
    let path = front.word(alloc, Nth::Second)?;
    call::open_file(&proc.dir, &path, mode_of(front), world)
}

// How the letter in force opens. One of the six is.
fn mode_of(front: &Front) -> Mode
    ensures { result ≡ mode_of (read_of front.now) }
{
    if front.has(b'r') {
        Mode::Read
    } else if front.has(b'w') {
        Mode::Write
    } else if front.has(b'u') {
        Mode::Update
    } else if front.has(b'a') {
        Mode::Append
    } else if front.has(b'c') {
        Mode::AppendOld
    } else {
        Mode::Create
    }
}
