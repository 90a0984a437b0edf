//! The message of a trouble, and the end that comes after it.
ghost use Rattle.std.specs.Prelude.{◌≡◌, true, IfOk, IfErr, IfSome};
ghost use Rattle.el_words.specs.Prog.{name_text};
ghost use Rattle.el_world.specs.Handles.{are_usable};
ghost use Rattle.el_world.specs.Runs.{Done, ok_value};
ghost use Rattle.el_proc.specs.Troubles.{message, complaint, finish_in, IsHeard, Refuses};

use crate::descriptors::Fds;
use crate::next::Next;
use crate::process::Proc;
use crate::trouble::Trouble;
use crate::usage::usage_of;
use el_words::{Bytes, NoMemory, Prog};
use el_world::{Finish, Subject, World, call};
use std::alloc::Global;

/// Writes the message of a trouble once to what number 2 holds, where it holds something, and answers the
/// end with the trouble's status. A failed write changes nothing.
pub fn complain<W: World>(
    alloc: Global,
    proc: &Proc,
    name: &[u8],
    trouble: Trouble,
    world: &mut W,
) -> Next
    requires { are_usable (W.seen world.old).held proc.now.fds ≡ true }
    ensures run { IfSome (finish_in result) (Refuses (W.seen world.old) (W.seen world.new) proc.now.fds name.now trouble) }
    ensures memory { result ≡ Next.NoMemory → IsHeard proc.now.fds }
    ensures ends { result ≡ Next.Go → ⊥ }
    ensures held { (W.seen world.new).held ≡ (W.seen world.old).held }
{
    match tell(alloc, &proc.fds, name, trouble, None, world) {
        Ok(()) => Next::End(trouble.status()),
        Err(NoMemory) => Next::NoMemory,
    }
}

/// The end of a program that is refused: the message is written under its name. `subject` is what the message is
/// about, if there is more to say than the message does.
pub fn refused<W: World>(
    alloc: Global,
    fds: &Fds,
    program: Prog,
    trouble: Trouble,
    subject: Option<Subject<'_>>,
    world: &mut W,
) -> Finish
    requires { are_usable (W.seen world.old).held fds.now ≡ true }
    ensures run { Refuses (W.seen world.old) (W.seen world.new) fds.now (name_text program) trouble result }
    ensures memory { result ≡ Finish.NoMemory → IsHeard fds.now }
    ensures held { (W.seen world.new).held ≡ (W.seen world.old).held }
    ensures usable { are_usable (W.seen world.new).held fds.now ≡ true }
{
    refused_as(alloc, fds, program.name(), trouble, subject, world)
}

/// The same under any name.
pub fn refused_as<W: World>(
    alloc: Global,
    fds: &Fds,
    name: &[u8],
    trouble: Trouble,
    subject: Option<Subject<'_>>,
    world: &mut W,
) -> Finish
    requires { are_usable (W.seen world.old).held fds.now ≡ true }
    ensures run { Refuses (W.seen world.old) (W.seen world.new) fds.now name.now trouble result }
    ensures memory { result ≡ Finish.NoMemory → IsHeard fds.now }
    ensures held { (W.seen world.new).held ≡ (W.seen world.old).held }
    ensures usable { are_usable (W.seen world.new).held fds.now ≡ true }
{
    match tell(alloc, fds, name, trouble, subject, world) {
        Ok(()) => Finish::Status(trouble.status()),
        Err(NoMemory) => Finish::NoMemory,
    }
}

/// Writes the message of a trouble once to what number 2 holds, if it holds something; if it doesn't, no memory is
/// taken. A failed write changes nothing. Just before the message the World is told what it is about.
#[tactic(auto, using(el_world::proofs::Runs::acts, crate::proofs::Usable::usable), unfolding(crate::specs::Troubles::complaint))]
pub fn tell<W: World>(
    alloc: Global,
    fds: &Fds,
    name: &[u8],
    trouble: Trouble,
    subject: Option<Subject<'_>>,
    world: &mut W,
) -> Result<(), NoMemory>
    requires { are_usable (W.seen world.old).held fds.now ≡ true }
    ensures run { Done (W.seen world.old) (W.seen world.new) (complaint fds.now name.now trouble) (ok_value result) }
    ensures memory { IfErr result (λ _. IsHeard fds.now) }
    ensures held { (W.seen world.new).held ≡ (W.seen world.old).held }
{
    if let Some(handle) = fds.messages() {
        let line = message(alloc, name, trouble)?;
        explain(name, trouble, subject, world);
        let _ = call::write(handle, line.as_bytes(), world)?;
    }
    Ok(())
}

// Says what the message is about. Without a subject it is how the program is called, if it was called wrongly.
fn explain<W: World>(name: &[u8], trouble: Trouble, subject: Option<Subject<'_>>, world: &mut W)
    ensures { W.seen world.new ≡ W.seen world.old }
{
    match subject {
        Some(subject) => world.explain(subject),
        None if trouble.is_of_usage() => world.explain(Subject::of(b"usage:", usage_of(name))),
        None => {}
    }
}

#[tactic(auto, unfolding(crate::specs::Troubles::message))]
fn message(alloc: Global, name: &[u8], trouble: Trouble) -> Result<Bytes, NoMemory>
    ensures { IfOk result (λ line. line ≡ message name.now trouble) }
{
    let mut line = Bytes::from_slice(alloc, name)?;
    line.append(b": ")?;
    line.append(trouble.text(alloc)?.as_bytes())?;
    line.append(b"\n")?;
    Ok(line)
}
