//! Reading a handle to its end.
ghost use Rattle.std.specs.Prelude.{◌≡◌, true};
ghost use Rattle.el_world.specs.World.{HasCause};
ghost use Rattle.el_world.specs.Handles.{is_usable, are_usable};
ghost use Rattle.el_world.specs.Follows.{Follows};
ghost use Rattle.el_proc.specs.Processes.{state_of};
ghost use Rattle.el_proc.specs.Inputs.{whole_input, text_of};

use crate::process::{Proc, take_unit};
use el_words::{Bytes, NoMemory};
use el_world::{Finish, Handle, World, call};
use std::alloc::Global;

/// Why an input isn't read to its end.
#[derive(Clone, Copy, PartialEq, Eq)]
pub enum GatherFault {
    /// A read failed.
    Failed,
    /// A read was due, and no unit was left.
    Spent,
    /// There was no memory to go on.
    NoMemory,
}

impl From<NoMemory> for GatherFault {
    ghost use Rattle.std.specs.Prelude.{◌≡◌};
    ghost use Rattle.el_proc.specs.declared.gathering.GatherFault.TheVariants.{NoMemory as no_memory};

    ghost from_gives = { λ _ fault. fault ≡ no_memory };

    fn from(_: NoMemory) -> Self {
        GatherFault::NoMemory
    }
}

/// Reads a handle to its end, in pieces as the world gives them, with a unit before each read. `Failed`
/// exactly where a read failed, and `Spent` where one was due with no unit left: what was read until then
/// is lost.
pub fn gather<W: World>(
    alloc: Global,
    proc: &mut Proc,
    handle: Handle,
    world: &mut W,
) -> Result<Bytes, GatherFault>
    requires handles { are_usable (W.seen world.old).held proc.old.fds ≡ true }
    requires handle { is_usable (W.seen world.old).held handle ≡ true }
    ensures run { Follows (W.seen world.old) (W.seen world.new) (whole_input (state_of proc.old) handle) proc.old.budget (text_of result) (λ text. text) (state_of proc.new) proc.new.budget }
    ensures cause { HasCause (W.seen world.old).faults (W.seen world.new).faults result GatherFault.Failed }
    ensures state { state_of proc.new ≡ state_of proc.old }
    ensures words { proc.new.words ≡ proc.old.words }
    ensures held { (W.seen world.new).held ≡ (W.seen world.old).held }
    ensures usable { are_usable (W.seen world.new).held proc.new.fds ≡ true }
{
    // Named for its range alone: no budget has as many units as the bound on reads.
    let _units = proc.budget;
    let mut text = Bytes::new(alloc);
    'pieces: loop {
        if !take_unit(proc) {
            return Err(GatherFault::Spent);
        }
        match call::read(handle, world)? {
            Ok(piece) if piece.len() == 0 => return Ok(text),
            Ok(piece) => text.append(piece.as_bytes())?,
            Err(_) => return Err(GatherFault::Failed),
        }
    }
}

/// What was gathered, as a program goes on with it: None where a read failed. A spent budget and want of
/// memory end the process.
pub fn text_or_end(gathered: Result<Bytes, GatherFault>) -> Result<Option<Bytes>, Finish>
    ensures { result ≡ text_of gathered }
{
    match gathered {
        Ok(text) => Ok(Some(text)),
        Err(GatherFault::Failed) => Ok(None),
        Err(GatherFault::Spent) => Err(Finish::Spent),
        Err(GatherFault::NoMemory) => Err(Finish::NoMemory),
    }
}
