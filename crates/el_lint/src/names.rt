//! The names that programs and directives put in.
#![tactic(auto, using(crate::proofs::NamesPut::named))]

ghost use Rattle.el_script.specs.Vocabulary.{HasNul, letters_of, Marked, names_in, own_member};
ghost use Rattle.std.specs.Prelude.{◌≡◌, [], ◌∷◌, map, IfOk};
ghost use Rattle.el_tree.specs.Marks.{first_text, value_marks};
ghost use Rattle.el_lint.specs.Known.{names_put};
ghost use Rattle.el_lint.specs.LetterTables.{puts_value};

use crate::letters::puts_value;
use el_tree::{Place, Places};
use el_words::{NoMemory, Prog, Words};
use std::alloc::Global;

/// The names that a program or a directive puts in by itself.
pub(crate) fn names_put(
    alloc: Global,
    program: Prog,
    options: &Words,
    places: &Places,
) -> Result<Words, NoMemory>
    ensures { IfOk result (λ names. names ≡ names_put (own_member program (letters_of program options.now) places.now)) }
{
    match program {
        Prog::Define | Prog::Importas | Prog::Import => first_name(alloc, places),
        Prog::Multidefine => names_in(alloc, places),
        Prog::Forx | Prog::Forstdin | Prog::Forbacktickx | Prog::Backtick => {
            value_name(alloc, program, options, places)
        }
        _ => Ok(Words::new(alloc)),
    }
}

// The name of a loop's or backtick's value, where that is put in.
fn value_name(
    alloc: Global,
    program: Prog,
    options: &Words,
    places: &Places,
) -> Result<Words, NoMemory>
    ensures { IfOk result (λ names. names ≡ map (λ (marked : Marked). marked.0) (value_marks (puts_value program (letters_of program options.now)) (first_text places.now))) }
{
    if puts_value(alloc, program, options)? {
        first_name(alloc, places)
    } else {
        Ok(Words::new(alloc))
    }
}

fn first_name(alloc: Global, places: &Places) -> Result<Words, NoMemory>
    ensures { IfOk result (λ names. names ≡ first_text places.now ∷ []) }
{
    let mut names = Words::new(alloc);
    names.push(first_text(places))?;
    Ok(names)
}

// The word at the first place; empty where none stands there.
fn first_text(places: &Places) -> &[u8]
    ensures same { result.now ≡ first_text places.now }
    ensures no_nul { HasNul result.now → ⊥ }
{
    match places.get(0) {
        Some(Place::Text(name)) => name.as_bytes(),
        _ => &[],
    }
}

/// The names of the first block of names.
pub(crate) fn names_in(alloc: Global, places: &Places) -> Result<Words, NoMemory>
    ensures { IfOk result (λ names. names ≡ names_in places.now) }
{
    for place in places.iter() {
        if let Place::Names(names) = place {
            return names.copy();
        }
    }
    Ok(Words::new(alloc))
}
