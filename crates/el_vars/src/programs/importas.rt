//! importas [-i | -D default] [-u] [-C -n -s -d delimiters] var envvar prog..
#![tactic(auto, using(el_front::proofs::Rooms::rooms))]

ghost use Rattle.el_room.specs.Vocabulary.{are_usable, read_of, Acts, directive_told, directive_value, directive_text, Second};
ghost use Rattle.std.specs.Prelude.{◌≡◌, true, codes};
ghost use Rattle.std.specs.FinMap as map;
ghost use Rattle.el_vars.specs.Importas.{imports_good_names, imported_value, unset_words, imported_words, imported, without_imported};
ghost use Rattle.el_vars.specs.Multisubstitute.{substitute_alone};
ghost use Rattle.el_vars.specs.Adding.{IsFoundAs, AddsPairs};

use crate::fault::PairFault;
use crate::putting::put_alone;
use crate::values::{add_pair, transformed};
use el_room::{
    Directive, Env, Finish, Front, Nth, Proc, Prog, Trouble, Word, Words, World, is_good_name,
};
use el_subst::{Subst, is_good_key};
use std::alloc::Global;

/// Puts the words that the letters make of a variable's value in place of the first name, and the process
/// goes on with the rest. Where the variable isn't set there are no words; with `-D` that default is its
/// value, and with `-i` it is refused; of these two the last counts. `-u` removes the variable, unless
/// something is refused. `-C`, `-n`, `-s` and `-d` are as in `define`.
///
/// The process ends with 100 where no reference can have the first name or no variable the second, where `-i`
/// finds no variable, and where a netstring is malformed, each behind a message.
///
/// The rule is execline's (https://skarnet.org/software/execline/importas.html), without `-N` and `-c`; that
/// of `-i` and `-D` the last counts, and that a name which no variable can have is refused, are this
/// project's own.
pub fn importas<W: World>(
    alloc: Global,
    front: Front,
    proc: &mut Proc,
    world: &mut W,
) -> Result<(), Finish>
    requires { are_usable (W.seen world.old).held proc.old.fds ≡ true }
    ensures { Acts (W.seen world.old) (W.seen world.new) (substitute_alone Prog.Importas) (read_of front) proc.old proc.new result }
{
    put_alone(alloc, Prog::Importas, front, proc, world)
}

/// Whether a reference can have the first name, and a variable the second.
pub(crate) fn imports_good_names(directive: &Directive) -> bool
    ensures { result ≡ imports_good_names (directive_told directive.now) }
{
    is_good_key(directive.text(Nth::First)) && is_good_name(directive.text(Nth::Second))
}

/// Adds the pair of the directive.
pub(crate) fn add_imported(
    alloc: Global,
    directive: &Directive,
    env: &Env,
    subst: &mut Subst,
) -> Result<(), PairFault>
    requires { imports_good_names (directive_told directive.now) ≡ true }
    ensures { AddsPairs subst.old subst.new (imported (directive_told directive.now) env.now) result }
{
    let words = imported_words(alloc, directive, env)?;
    Ok(add_pair(alloc, directive.text(Nth::First), words, subst)?)
}

// The words of the variable, or those that stand for it where it isn't set.
fn imported_words(alloc: Global, directive: &Directive, env: &Env) -> Result<Words, PairFault>
    ensures { IsFoundAs (imported_words (directive_told directive.now) (map.get env.now (directive_text Second (directive_told directive.now)))) result }
{
    match env.get(directive.text(Nth::Second)) {
        Some(value) => imported_value(alloc, directive, &Word::of(alloc, value)?),
        None => unset_words(alloc, directive),
    }
}

fn unset_words(alloc: Global, directive: &Directive) -> Result<Words, PairFault>
    ensures { IsFoundAs (unset_words (directive_told directive.now) (directive_value (codes "D") (directive_told directive.now))) result }
{
    match directive.value(b'D') {
        Some(value) => imported_value(alloc, directive, value),
        None if directive.has(b'i') => Err(PairFault::Refused(Trouble::NotSet)),
        None => Ok(Words::new(alloc)),
    }
}

fn imported_value(alloc: Global, directive: &Directive, value: &Word) -> Result<Words, PairFault>
    ensures { IsFoundAs (imported_value (directive_told directive.now) value.now) result }
{
    transformed(alloc, directive, directive.has(b's'), value)
}

/// Removes the variable of the directive, where that is asked for.
pub(crate) fn remove_imported(directive: &Directive, env: &mut Env)
    ensures { env.new ≡ without_imported (directive_told directive.now) env.old }
{
    if directive.has(b'u') {
        env.unset(directive.text(Nth::Second));
    }
}
