//! import [-i | -D default] [-u] [-C -n -s -d delimiters] var prog..
#![tactic(auto, using(el_front::proofs::Rooms::rooms))]

ghost use Rattle.el_room.specs.Vocabulary.{are_usable, read_of, directive_told, Acts};
ghost use Rattle.std.specs.Prelude.{◌≡◌, true, IfOk};
ghost use Rattle.el_vars.specs.Import.{as_importas, import};

use crate::putting::put_values;
use el_room::{Directive, Finish, Front, NoMemory, Nth, Proc, Prog, Words, World};
use std::alloc::Global;
use std::slice;

/// Does what `importas` does with the same letters and the name in both places.
///
/// The process ends with 100 where no reference or no variable can have the name, where `-i` finds no
/// variable, and where a netstring is malformed, each behind a message with this program's name.
///
/// That this program is `importas` with one name in both places is this project's own rule.
pub fn import_var<W: World>(
    alloc: Global,
    front: Front,
    proc: &mut Proc,
    world: &mut W,
) -> Result<(), Finish>
    requires { are_usable (W.seen world.old).held proc.old.fds ≡ true }
    ensures { Acts (W.seen world.old) (W.seen world.new) import (read_of front) proc.old proc.new result }
{
    let (directive, rest) = as_importas(alloc, front)?;
    put_values(
        alloc,
        Prog::Import,
        slice::from_ref(&directive),
        rest,
        proc,
        world,
    )
}

// The front as the directive of importas that has the name in both places, and the words that remain.
fn as_importas(alloc: Global, front: Front) -> Result<(Directive, Words), NoMemory>
    ensures directive { IfOk result (λ both. directive_told both.0 ≡ as_importas (read_of front)) }
    ensures rest { IfOk result (λ both. both.1 ≡ (read_of front).rest) }
{
    let mut texts = Words::new(alloc);
    let name = front.text(Nth::First);
    texts.push(name)?;
    texts.push(name)?;
    let (mut directive, rest) = front.into_directive(alloc, Prog::Importas)?;
    directive.texts = texts;
    Ok((directive, rest))
}
