//! elgetpositionals [-P n] prog..
#![tactic(auto, using(el_front::proofs::Rooms::rooms))]

ghost use Rattle.el_room.specs.Vocabulary.{are_usable, read_of, directive_told, Acts};
ghost use Rattle.std.specs.Prelude.{◌≡◌, true};
ghost use Rattle.el_vars.specs.Elgetpositionals.{least_of, got_positionals};
ghost use Rattle.el_vars.specs.Multisubstitute.{substitute_alone};
ghost use Rattle.el_vars.specs.Adding.{AddsPairs};

use crate::fault::PairFault;
use crate::putting::put_alone;
use el_room::{Directive, Env, EnvFault, Finish, Front, Proc, Prog, Trouble, World, parse_u64};
use el_subst::Subst;
use std::alloc::Global;

/// Puts the positional parameters in place of `#`, `0`, `1` and so on, and `@`, and the process goes on with
/// the rest. With `-P` at least so many numbers have a word, an empty one where the parameter is missing.
///
/// The process ends with 100 where there are no positional parameters, behind a message.
///
/// The rule is execline's (https://skarnet.org/software/execline/elgetpositionals.html).
pub fn elgetpositionals<W: World>(
    alloc: Global,
    front: Front,
    proc: &mut Proc,
    world: &mut W,
) -> Result<(), Finish>
    requires { are_usable (W.seen world.old).held proc.old.fds ≡ true }
    ensures { Acts (W.seen world.old) (W.seen world.new) (substitute_alone Prog.Elgetpositionals) (read_of front) proc.old proc.new result }
{
    put_alone(alloc, Prog::Elgetpositionals, front, proc, world)
}

/// Adds the pairs of the directive.
pub(crate) fn add_positionals(
    directive: &Directive,
    env: &Env,
    subst: &mut Subst,
) -> Result<(), PairFault>
    ensures { AddsPairs subst.old subst.new (got_positionals (directive_told directive.now) env.now) result }
{
    match env.positionals() {
        Ok(found) => Ok(subst.add_positionals(&found, least_of(directive))?),
        Err(EnvFault::NoFrame) => Err(PairFault::Refused(Trouble::NoFrame)),
        Err(_) => Err(PairFault::NoMemory),
    }
}

// The number of `-P`, or 0.
fn least_of(directive: &Directive) -> u64
    ensures { result ≡ least_of (directive_told directive.now) }
{
    match directive.value(b'P') {
        Some(word) => parse_u64(word.as_bytes()).unwrap_or(0),
        None => 0,
    }
}
