//! multidefine [-C -n -d delimiters] value { names } prog..
#![tactic(auto, using(el_front::proofs::Rooms::rooms))]

ghost use Rattle.el_room.specs.Vocabulary.{list_all, HasNul, Pairs, are_usable, read_of, directive_told, Acts};
ghost use Rattle.std.specs.Prelude.{◌≡◌, ◌++◌, true, take, drop, IfOk, OnOk};
ghost use Rattle.el_vars.specs.Multidefine.{is_good_part, has_good_parts, named_pair, named_pairs, multidefined};
ghost use Rattle.el_vars.specs.Multisubstitute.{substitute_alone};
ghost use Rattle.el_vars.specs.Adding.{AddsPairs};

use crate::fault::PairFault;
use crate::putting::put_alone;
use crate::values::{add_pair, transformed};
use el_room::{Directive, Finish, Front, NoMemory, Nth, Proc, Prog, Words, World};
use el_subst::{Subst, is_good_key};
use std::alloc::Global;

/// Splits the value, and puts the first word in place of the first name, the second of the second, and so on,
/// and the process goes on with the rest. A name without a word stands for no words, an empty name skips its
/// word, and words without a name are dropped. `-C`, `-n` and `-d` are as in `define`.
///
/// The process ends with 100 where no reference can have a name that isn't empty, and where a netstring is
/// malformed, each behind a message.
///
/// The rule is execline's (https://skarnet.org/software/execline/multidefine.html), without `-N`, `-c`, `-0`
/// and `-r`; that a name without a word stands for no words is this project's own.
pub fn multidefine<W: World>(
    alloc: Global,
    front: Front,
    proc: &mut Proc,
    world: &mut W,
) -> Result<(), Finish>
    requires { are_usable (W.seen world.old).held proc.old.fds ≡ true }
    ensures { Acts (W.seen world.old) (W.seen world.new) (substitute_alone Prog.Multidefine) (read_of front) proc.old proc.new result }
{
    put_alone(alloc, Prog::Multidefine, front, proc, world)
}

/// Whether each name is empty, or one that a reference can have.
pub(crate) fn has_good_parts(directive: &Directive) -> bool
    ensures { result ≡ has_good_parts (directive_told directive.now) }
{
    for name in &directive.names {
        if !is_good_part(name) {
            return false;
        }
    }
    true
}

fn is_good_part(name: &[u8]) -> bool
    ensures { result ≡ is_good_part name.now }
{
    name.is_empty() || is_good_key(name)
}

/// Adds the pairs of the directive.
pub(crate) fn add_multidefined(
    alloc: Global,
    directive: &Directive,
    subst: &mut Subst,
) -> Result<(), PairFault>
    requires { has_good_parts (directive_told directive.now) ≡ true }
    ensures { AddsPairs subst.old subst.new (multidefined (directive_told directive.now)) result }
{
    let value = directive.word(alloc, Nth::First)?;
    let words = transformed(alloc, directive, true, &value)?;
    Ok(add_named(alloc, &directive.names, &words, subst)?)
}

// Adds each name with its word.
fn add_named(alloc: Global, names: &Words, words: &Words, subst: &mut Subst) -> Result<(), NoMemory>
    requires { list_all is_good_part names.now ≡ true }
    ensures { OnOk result (subst.new ≡ subst.old ++ named_pairs names.now words.now) }
{
    let mut place = 0;
    for name in names {
        add_name(alloc, name, word_alone(alloc, words, place)?, subst)?;
        place += 1;
    }
    Ok(())
}

// Adds a name with these words; an empty name skips them.
fn add_name(alloc: Global, name: &[u8], words: Words, subst: &mut Subst) -> Result<(), NoMemory>
    requires good { is_good_part name.now ≡ true }
    requires no_nul { HasNul name.now → ⊥ }
    ensures { OnOk result ((more : Pairs) → subst.new ++ more ≡ subst.old ++ named_pair name.now words more) }
{
    if name.is_empty() {
        return Ok(());
    }
    add_pair(alloc, name, words, subst)
}

// The word at a place, where there is one, as a list.
fn word_alone(alloc: Global, words: &Words, place: usize) -> Result<Words, NoMemory>
    ensures { IfOk result (λ alone. alone ≡ take 1 (drop place words.now)) }
{
    let mut alone = Words::new(alloc);
    if place < words.len() {
        alone.push(words.at(place))?;
    }
    Ok(alone)
}
