//! The layout of a tree.
#![tactic(auto, using(crate::proofs::Printing::printing))]

ghost use Rattle.el_script.specs.Vocabulary.{args_of, places_of, tree_of};
ghost use Rattle.std.specs.Prelude.{◌≡◌, ◌+◌, [], ◌∷◌, ◌++◌, drop, IfOk, OnOk};
ghost use Rattle.el_layout.specs.Layout.{items_layout, words_layout, indent, line, indented_block, tree_layout, places_layout, layout};

use crate::quoting::print_word;
use el_tree::{Arg, Args, Group, Last, Nodes, Place, Places, Tree};
use el_words::{Bytes, NoMemory, Words};
use std::alloc::Global;

/// The layout of `tree`: each program, each directive and each command begins a line, indented by two spaces for each
/// block around; the blocks of values and of names, and those of a command, stay on their line. A word stands in quotes
/// where it wouldn't be read as itself. The only error is want of memory.
///
/// The layout is this project's own.
pub fn print(alloc: Global, tree: &Tree) -> Result<Bytes, NoMemory>
    ensures { IfOk result (λ text. text ≡ layout tree.now) }
{
    let mut out = Bytes::new(alloc);
    print_lines(&mut out, 0, &tree.nodes, &tree.last)?;
    Ok(out)
}

// A line for each program or directive, and for a command behind them.
#[cycle(print)]
fn print_lines(out: &mut Bytes, depth: usize, nodes: &Nodes, last: &Last) -> Result<(), NoMemory>
    ensures { OnOk result (out.new ≡ out.old ++ tree_layout depth (tree_of nodes.now last.now)) }
{
    for node in nodes.iter() {
        print_indent(out, depth)?;
        out.append(node.prog.name())?;
        print_words(out, &node.options)?;
        print_places(out, depth, &node.places)?;
        out.push(b'\n')?;
    }
    match last {
        Last::End => Ok(()),
        Last::Command(args) => print_command(out, depth, args),
    }
}

#[cycle(print)]
fn print_places(out: &mut Bytes, depth: usize, places: &Places) -> Result<(), NoMemory>
    ensures { OnOk result (out.new ≡ out.old ++ places_layout depth places.now) }
{
    for place in places.iter() {
        print_place(out, depth, place)?;
    }
    Ok(())
}

#[cycle(print)]
fn print_place(out: &mut Bytes, depth: usize, place: &Place) -> Result<(), NoMemory>
    ensures { OnOk result (out.new ≡ out.old ++ places_layout depth (places_of (place.now ∷ []))) }
{
    match place {
        Place::Text(text) => {
            out.push(b' ')?;
            print_word(out, text.as_bytes())
        }
        Place::Block(block) => print_block(out, depth, &block.nodes, &block.last),
        Place::Values(values) => {
            out.append(b" {")?;
            print_items(out, values)?;
            out.append(b" }")
        }
        Place::Names(names) => {
            out.append(b" {")?;
            print_words(out, names)?;
            out.append(b" }")
        }
        Place::Directives(directives) => print_block(out, depth, directives, &Last::End),
    }
}

// A block of lines. No tree that is deeper than a number of usize fits in memory.
#[cycle(print)]
fn print_block(out: &mut Bytes, depth: usize, nodes: &Nodes, last: &Last) -> Result<(), NoMemory>
    ensures { OnOk result (out.new ≡ out.old ++ indented_block depth (tree_layout (depth + 1) (tree_of nodes.now last.now))) }
{
    let inner = depth.checked_add(1).ok_or(NoMemory)?;
    out.append(b" {\n")?;
    print_lines(out, inner, nodes, last)?;
    print_indent(out, depth)?;
    out.push(b'}')
}

fn print_words(out: &mut Bytes, words: &Words) -> Result<(), NoMemory>
    ensures { OnOk result (out.new ≡ out.old ++ words_layout words.now) }
{
    for word in words {
        out.push(b' ')?;
        print_word(out, word)?;
    }
    Ok(())
}

// A command's line, with one space between its items, of which there is one at least.
fn print_command(out: &mut Bytes, depth: usize, args: &Args) -> Result<(), NoMemory>
    ensures { OnOk result (out.new ≡ out.old ++ line depth (drop 1 (items_layout args.now))) }
{
    print_indent(out, depth)?;
    let mut items = args.iter();
    let Some(first) = items.next() else {
        return Ok(());
    };
    print_item(out, first)?;
    for item in items {
        out.push(b' ')?;
        print_item(out, item)?;
    }
    out.push(b'\n')
}

// Puts items last, each behind one space.
#[cycle(print_items)]
fn print_items(out: &mut Bytes, group: &Group) -> Result<(), NoMemory>
    ensures { OnOk result (out.new ≡ out.old ++ items_layout group.now) }
{
    for item in group.iter() {
        out.push(b' ')?;
        print_item(out, item)?;
    }
    Ok(())
}

#[cycle(print_items)]
fn print_item(out: &mut Bytes, item: &Arg) -> Result<(), NoMemory>
    ensures { OnOk result (out.new ≡ out.old ++ drop 1 (items_layout (args_of (item.now ∷ [])))) }
{
    match item {
        Arg::Word(word) => print_word(out, word.as_bytes()),
        Arg::Group(group) => {
            out.push(b'{')?;
            print_items(out, group)?;
            out.append(b" }")
        }
    }
}

fn print_indent(out: &mut Bytes, depth: usize) -> Result<(), NoMemory>
    ensures { OnOk result (out.new ≡ out.old ++ indent depth) }
{
    for _ in 0..depth {
        out.append(b"  ")?;
    }
    Ok(())
}
