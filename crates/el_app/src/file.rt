//! The script of a call: in a word, or in a file.
#![tactic(auto, using(el_world::proofs::Follows::stops, el_proc::proofs::Refusals::refusals), unfolding(crate::specs::Files::file_script, crate::specs::Files::opened_script))]

ghost use Rattle.el_room.specs.Vocabulary.{is_held, standard_fds, Follows, state_of};
ghost use Rattle.std.specs.Prelude.{◌≡◌, true};
ghost use Rattle.el_app.specs.Files.{whole_file, opened_script, file_script, script_from};

use crate::asked::Source;
use crate::refusal::refused;
use el_lex::MAX_SCRIPT;
use el_proc::{Proc, Trouble};
use el_words::{Bytes, Word};
use el_world::{Finish, Handle, Mode, World, call};
use std::alloc::Global;

/// The script that stands there; a file is read as `read_script` says.
pub(crate) fn script_from<W: World>(
    alloc: Global,
    name: &[u8],
    source: &Source,
    proc: &mut Proc,
    world: &mut W,
) -> Result<Bytes, Finish>
    requires { proc.old.fds ≡ standard_fds }
    ensures run { Follows (W.seen world.old) (W.seen world.new) (script_from name.now (state_of proc.old) source.now) proc.old.budget result (λ script. script) (state_of proc.old) proc.new.budget }
    ensures state { state_of proc.new ≡ state_of proc.old }
{
    match source {
        Source::Inline(script) => Ok(Bytes::from_slice(alloc, script.as_bytes())?),
        Source::File(path) => read_script(alloc, name, path, proc, world),
    }
}

/// The script in the file that `path` names: it is opened for reading from the process's directory, read
/// until its end or until it has more bytes than a script may have, and closed; a unit is taken before
/// each read. A failed open or read ends the process with 111, behind a message under the tool's name.
pub(crate) fn read_script<W: World>(
    alloc: Global,
    name: &[u8],
    path: &Word,
    proc: &mut Proc,
    world: &mut W,
) -> Result<Bytes, Finish>
    requires { proc.old.fds ≡ standard_fds }
    ensures run { Follows (W.seen world.old) (W.seen world.new) (file_script name.now (state_of proc.old) path.now) proc.old.budget result (λ script. script) (state_of proc.old) proc.new.budget }
    ensures state { state_of proc.new ≡ state_of proc.old }
{
    match call::open_file(&proc.dir, path, Mode::Read, world)? {
        Ok(handle) => read_opened(alloc, name, handle, proc, world),
        Err(_) => Err(refused(alloc, name, proc, Trouble::Failed, None, world)),
    }
}

fn read_opened<W: World>(
    alloc: Global,
    name: &[u8],
    handle: Handle,
    proc: &mut Proc,
    world: &mut W,
) -> Result<Bytes, Finish>
    requires held { is_held (W.seen world.old).held handle ≡ true }
    requires standard { proc.old.fds ≡ standard_fds }
    ensures run { Follows (W.seen world.old) (W.seen world.new) (opened_script name.now (state_of proc.old) handle) proc.old.budget result (λ script. script) (state_of proc.old) proc.new.budget }
    ensures state { state_of proc.new ≡ state_of proc.old }
{
    let script = read_pieces(alloc, handle, proc, world)?;
    call::close(handle, world);
    match script {
        Some(script) => Ok(script),
        None => Err(refused(alloc, name, proc, Trouble::Failed, None, world)),
    }
}

// All bytes up to the end, or past the limit of a script; None where a read fails.
fn read_pieces<W: World>(
    alloc: Global,
    handle: Handle,
    proc: &mut Proc,
    world: &mut W,
) -> Result<Option<Bytes>, Finish>
    requires { is_held (W.seen world.old).held handle ≡ true }
    ensures run { Follows (W.seen world.old) (W.seen world.new) (whole_file (state_of proc.old) handle) proc.old.budget result (λ script. script) (state_of proc.old) proc.new.budget }
    ensures state { state_of proc.new ≡ state_of proc.old }
    ensures held { (W.seen world.new).held ≡ (W.seen world.old).held }
{
    let mut script = Bytes::new(alloc);
    'pieces: while script.len() <= MAX_SCRIPT {
        if proc.budget == 0 {
            return Err(Finish::Spent);
        }
        proc.budget -= 1;
        match call::read(handle, world)? {
            Ok(piece) if piece.len() == 0 => return Ok(Some(script)),
            Ok(piece) => script.append(piece.as_bytes())?,
            Err(_) => return Ok(None),
        }
    }
    Ok(Some(script))
}
