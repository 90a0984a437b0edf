//! The tree of a script with importas for each import.
#![tactic(auto, using(crate::proofs::Copying::copying))]

ghost use Rattle.std.specs.Prelude.{◌≡◌, ◌∷◌, [], true, map, IfOk};
ghost use Rattle.el_tree.specs.Lists.{places_of};
ghost use Rattle.el_tree.specs.Upgrade.{upgraded};
ghost use Rattle.el_tree.specs.Copies.{copied, copied_program, copied_places, own_places, copied_node};

use crate::{Arg, Args, Group, Last, Node, Nodes, Place, Places, Tree};
use el_words::{NoMemory, Prog};
use std::alloc::Global;

/// A copy of `tree` with importas for each import, in program blocks too: with the same option words, and the name at both places.
/// Commands, blocks of values and directives are as they were. The only error is want of memory.
///
/// That `import var` is `importas var var` is execline's rule.
pub fn upgrade(alloc: Global, tree: &Tree) -> Result<Tree, NoMemory>
    ensures { IfOk result (λ made. made ≡ upgraded tree.now) }
{
    copied_tree(alloc, true, tree)
}

// A copy of the tree, upgraded or as it is.
#[cycle(copy)]
fn copied_tree(alloc: Global, upgrades: bool, tree: &Tree) -> Result<Tree, NoMemory>
    ensures { IfOk result (λ made. made ≡ copied upgrades tree.now) }
{
    let nodes = copied_nodes(alloc, upgrades, &tree.nodes)?;
    let last = copied_last(alloc, &tree.last)?;
    Ok(Tree { nodes, last })
}

// Copies of programs or directives.
#[cycle(copy)]
fn copied_nodes(alloc: Global, upgrades: bool, nodes: &Nodes) -> Result<Nodes, NoMemory>
    ensures { IfOk result (λ made. made ≡ map (copied_node upgrades) nodes.now) }
{
    let mut made = Nodes::new(alloc);
    for node in nodes.iter() {
        made.push(Node {
            prog: copied_program(upgrades, node.prog),
            options: node.options.copy()?,
            places: copied_places(alloc, upgrades, node.prog, &node.places)?,
        })?;
    }
    Ok(made)
}

// Copies of a program's places, behind the name of an import once more, since importas has it at both its places.
#[cycle(copy)]
fn copied_places(
    alloc: Global,
    upgrades: bool,
    program: Prog,
    places: &Places,
) -> Result<Places, NoMemory>
    ensures { IfOk result (λ made. made ≡ own_places upgrades program places.now) }
{
    let mut made = Places::new(alloc);
    if upgrades && program == Prog::Import {
        if let Some(Place::Text(name)) = places.get(0) {
            made.push(Place::Text(name.copy()?))?;
        }
    }
    for place in places.iter() {
        made.push(copied_place(alloc, upgrades, place)?)?;
    }
    Ok(made)
}

#[cycle(copy)]
fn copied_place(alloc: Global, upgrades: bool, place: &Place) -> Result<Place, NoMemory>
    ensures { IfOk result (λ made. places_of (made ∷ []) ≡ copied_places upgrades (places_of (place.now ∷ []))) }
{
    match place {
        Place::Text(text) => Ok(Place::Text(text.copy()?)),
        Place::Block(block) => Ok(Place::Block(copied_tree(alloc, upgrades, block)?)),
        Place::Values(values) => Ok(Place::Values(copied_group(alloc, values)?)),
        Place::Names(names) => Ok(Place::Names(names.copy()?)),
        Place::Directives(directives) => {
            Ok(Place::Directives(copied_nodes(alloc, false, directives)?))
        }
    }
}

// Importas for import where imports are upgraded, and any other program as it is.
fn copied_program(upgrades: bool, program: Prog) -> Prog
    ensures { result ≡ copied_program upgrades program }
{
    match program {
        Prog::Import if upgrades => Prog::Importas,
        program => program,
    }
}

fn copied_last(alloc: Global, last: &Last) -> Result<Last, NoMemory>
    ensures { IfOk result (λ made. made ≡ last.now) }
{
    match last {
        Last::End => Ok(Last::End),
        Last::Command(args) => {
            let made = copied_group(alloc, args.as_group())?;
            Ok(Last::Command(Args::of_group(made)))
        }
    }
}

#[cycle(copy_items)]
fn copied_group(alloc: Global, group: &Group) -> Result<Group, NoMemory>
    ensures { IfOk result (λ made. made ≡ group.now) }
{
    let mut made = Group::new(alloc);
    for item in group.iter() {
        made.push(copied_item(alloc, item)?)?;
    }
    Ok(made)
}

#[cycle(copy_items)]
fn copied_item(alloc: Global, item: &Arg) -> Result<Arg, NoMemory>
    ensures { IfOk result (λ made. made ≡ item.now) }
{
    match item {
        Arg::Word(word) => Ok(Arg::Word(word.copy()?)),
        Arg::Group(group) => Ok(Arg::Group(copied_group(alloc, group)?)),
    }
}
