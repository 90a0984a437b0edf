//! define [-C -n -s -d delimiters] var value prog..
#![tactic(auto, using(el_front::proofs::Rooms::rooms))]

ghost use Rattle.el_room.specs.Vocabulary.{are_usable, read_of, directive_told, Acts};
ghost use Rattle.std.specs.Prelude.{◌≡◌, true};
ghost use Rattle.el_vars.specs.Define.{defines_good_name, defined};
ghost use Rattle.el_vars.specs.Multisubstitute.{substitute_alone};
ghost use Rattle.el_vars.specs.Adding.{AddsPairs};

use crate::fault::PairFault;
use crate::putting::put_alone;
use crate::values::{add_pair, transformed};
use el_room::{Directive, Finish, Front, Nth, Proc, Prog, World};
use el_subst::{Subst, is_good_key};
use std::alloc::Global;

/// Puts the words that the letters make of the value in place of the variable, and the process goes on with
/// the rest. With `-C` the value is crunched, with `-n` chomped and with `-s` split, at the delimiters of
/// `-d`, or at space, newline, carriage return and tab; with `-s` and an empty `-d` it is a sequence of
/// netstrings.
///
/// The process ends with 100 where no reference can have the name, and where a netstring is malformed, each
/// behind a message.
///
/// The rule is execline's (https://skarnet.org/software/execline/define.html), without `-N` and `-c`; that
/// `-s` and `-n` keep a last piece without a delimiter is this project's own.
pub fn define<W: World>(
    alloc: Global,
    front: Front,
    proc: &mut Proc,
    world: &mut W,
) -> Result<(), Finish>
    requires { are_usable (W.seen world.old).held proc.old.fds ≡ true }
    ensures { Acts (W.seen world.old) (W.seen world.new) (substitute_alone Prog.Define) (read_of front) proc.old proc.new result }
{
    put_alone(alloc, Prog::Define, front, proc, world)
}

/// Whether a reference can have the name.
pub(crate) fn defines_good_name(directive: &Directive) -> bool
    ensures { result ≡ defines_good_name (directive_told directive.now) }
{
    is_good_key(directive.text(Nth::First))
}

/// Adds the pair of the directive.
pub(crate) fn add_defined(
    alloc: Global,
    directive: &Directive,
    subst: &mut Subst,
) -> Result<(), PairFault>
    requires { defines_good_name (directive_told directive.now) ≡ true }
    ensures { AddsPairs subst.old subst.new (defined (directive_told directive.now)) result }
{
    let value = directive.word(alloc, Nth::Second)?;
    let words = transformed(alloc, directive, directive.has(b's'), &value)?;
    Ok(add_pair(alloc, directive.text(Nth::First), words, subst)?)
}
