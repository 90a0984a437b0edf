//! Scripts as trees.
#![tactic(auto, using(crate::proofs::Lists::lists))]

ghost use Rattle.std.specs.Prelude.{◌≡◌, ◌<◌, ◌^◌, [], ◌∷◌, ◌++◌, length, OnOk, OnErr, slice_get};
ghost use Rattle.std.specs.Option.{option_copied};
ghost use Rattle.std.specs.Slice.Iter.{iter_rest};
ghost use Rattle.std.specs.Iterator.Adapters.{IterYieldsInOrder};
ghost use Rattle.el_tree.specs.declared.tree.Node.{Node};
ghost use Rattle.el_tree.specs.declared.tree.Place.{Place};
ghost use Rattle.el_tree.specs.Trees.{unplaced};
ghost use Rattle.el_tree.specs.Lists.{places_of, place_list, ◌with_places◌, change_last, with_option, with_one_place};

use crate::items::{Args, Group};
use crate::nth::nth;
use el_options::places_of;
use el_words::{NoMemory, Prog, Word, Words};
use std::alloc::Global;
use std::marker::Model;
use std::slice;

/// A script as a tree: programs that go on with one another, and what stands last. A contract sees the definitions' tree, in
/// which the rest of a program is the tree of the programs behind it.
// A chain of any length is one list, so that only blocks are followed by recursion.
#[cycle(tree)]
#[derive(Drop)]
pub struct Tree {
    /// The programs in their order. `exit` can only be the last of them.
    pub nodes: Nodes,
    /// What stands behind the last program.
    pub last: Last,
}

impl Model for Tree {
    ghost use Rattle.el_tree.specs.Trees.{Tree};
    ghost use Rattle.el_tree.specs.Codes.{tree_coded};

    ghost Value = { Tree };

    ghost coded = { tree_coded };

    ghost use Rattle.el_tree.specs.Lists.{tree_of};
    ghost use Rattle.el_tree.specs.Sizes.{tree_size};

    ghost view = { λ t. tree_of t.nodes t.last };

    ghost size = { tree_size };

    ghost use Rattle.std.proofs.Common.{arith};
    ghost use Rattle.el_tree.specs.Falls.{tree_falls};

    ghost size_decreases = { λ t h. omega (arith, tree_falls t.nodes t.last) };
}

/// What stands behind the programs of a chain.
#[derive(Drop)]
pub enum Last {
    /// Nothing.
    End,
    /// A command of words and blocks, or the words behind `exit`.
    Command(Args),
}

/// A program with its option words as they are written, `--` among them, and its places.
#[cycle(tree)]
#[derive(Drop)]
pub struct Node {
    pub prog: Prog,
    pub options: Words,
    pub places: Places,
}

/// A list of programs. A contract sees their list.
#[cycle(tree)]
#[derive(Drop)]
pub struct Nodes {
    nodes: Vec<Node>,
}

impl Model for Nodes {
    ghost use Rattle.std.specs.Prelude.{List};
    ghost use Rattle.el_tree.specs.declared.tree.Node.{Node};
    ghost use Rattle.el_tree.specs.NodeCodes.{nodes_coded};

    ghost Value = { List Node };

    ghost coded = { nodes_coded };

    ghost use Rattle.el_tree.specs.Sizes.{nodes_size};

    ghost view = { λ n. n.nodes.items };

    ghost size = { nodes_size };

    ghost use Rattle.std.proofs.Common.{arith};
    ghost use Rattle.el_tree.specs.Falls.{nodes_fall};

    ghost size_decreases = { λ n h. omega (arith, nodes_fall n.nodes.items) };
}

impl Nodes {
    /// No programs. Later pushes take their memory from `alloc`.
    pub fn new(alloc: Global) -> Nodes
        ensures { result ≡ [] }
    {
        Nodes {
            nodes: Vec::new(alloc),
        }
    }

    /// How many programs there are.
    pub fn len(&self) -> usize
        ensures { result ≡ length self.now }
    {
        self.nodes.len()
    }

    /// The program at `place`, or None exactly where `place` is at least the length.
    pub fn get(&self, place: usize) -> Option<&Node>
        ensures { option_copied result ≡ slice_get self.now place }
    {
        self.nodes.get(place)
    }

    /// Puts `node` last. After an error the programs are as before.
    #[inline(always)]
    pub fn push(&mut self, node: Node) -> Result<(), NoMemory>
        ensures ok { OnOk result (self.new ≡ self.old ++ node ∷ []) }
        ensures err { OnErr result (self.new ≡ self.old) }
    {
        self.nodes.push(node)?;
        Ok(())
    }

    /// Puts an option word behind those of the last program. After an error the programs are as before.
    pub fn put_option(&mut self, word: &Word) -> Result<(), NoMemory>
        ensures ok { OnOk result (self.new ≡ change_last (with_option word.now) self.old) }
        ensures err { OnErr result (self.new ≡ self.old) }
    {
        let Some(last) = self.nodes.last_mut() else {
            return Ok(());
        };
        last.options.push(word.as_bytes())
    }

    /// Puts a place behind those of the last program. After an error the programs are as before.
    #[inline(always)]
    pub fn put_place(&mut self, place: Place) -> Result<(), NoMemory>
        ensures ok { OnOk result (self.new ≡ change_last (with_one_place (places_of (place ∷ []))) self.old) }
        ensures err { OnErr result (self.new ≡ self.old) }
    {
        let Some(last) = self.nodes.last_mut() else {
            return Ok(());
        };
        let count = places_of(last.prog).len();
        last.places.push_among(place, count)
    }

    /// The programs in order.
    pub fn iter(&self) -> slice::Iter<'_, Node>
        ensures rest { iter_rest result ≡ self.now }
        ensures bound { length (iter_rest result) < 2 ^ 64 }
        ensures runs { IterYieldsInOrder Node }
    {
        self.nodes.iter()
    }
}

/// One place of a program or directive.
#[cycle(tree)]
#[derive(Drop)]
pub enum Place {
    /// A word: a name, a fixed place, or a number.
    Text(Word),
    /// A program block.
    Block(Tree),
    /// A block of values.
    Values(Group),
    /// A block of names.
    Names(Words),
    /// A block of directives.
    Directives(Directives),
}

/// The places of a program or directive. A contract sees the definitions' places.
#[cycle(tree)]
#[derive(Drop)]
pub struct Places {
    places: Vec<Place>,
}

impl Model for Places {
    ghost use Rattle.el_tree.specs.Trees.{Places};
    ghost use Rattle.el_tree.specs.Codes.{places_coded};

    ghost Value = { Places };

    ghost coded = { places_coded };

    ghost use Rattle.el_tree.specs.Lists.{places_of};
    ghost use Rattle.el_tree.specs.Sizes.{places_size};

    ghost view = { λ p. places_of p.places.items };

    ghost size = { places_size };

    ghost use Rattle.std.proofs.Common.{arith};
    ghost use Rattle.el_tree.specs.Falls.{places_fall};

    ghost size_decreases = { λ p h. omega (arith, places_fall p.places.items) };
}

impl Places {
    /// No places. Later pushes take their memory from `alloc`.
    pub fn new(alloc: Global) -> Places
        ensures { result ≡ unplaced }
    {
        Places {
            places: Vec::new(alloc),
        }
    }

    /// How many places there are.
    pub fn len(&self) -> usize
        ensures { result ≡ length (place_list self.now) }
    {
        self.places.len()
    }

    /// The place at `place`, or None exactly where `place` is at least the length.
    pub fn get(&self, place: usize) -> Option<&Place>
        ensures { option_copied result ≡ slice_get (place_list self.now) place }
    {
        nth(&self.places, place)
    }

    /// Puts `place` last. After an error the places are as before.
    pub fn push(&mut self, place: Place) -> Result<(), NoMemory>
        ensures ok { OnOk result (self.new ≡ self.old with_places places_of (place ∷ [])) }
        ensures err { OnErr result (self.new ≡ self.old) }
    {
        self.push_among(place, 1)
    }

    /// Puts `place`, one of `count` in the end, last: the first takes room for them all, and for no more. After an error the places
    /// are as before.
    #[inline(always)]
    pub(crate) fn push_among(&mut self, place: Place, count: usize) -> Result<(), NoMemory>
        ensures ok { OnOk result (self.new ≡ self.old with_places places_of (place ∷ [])) }
        ensures err { OnErr result (self.new ≡ self.old) }
    {
        if self.places.is_empty() {
            self.places.reserve_exact(count)?;
        }
        self.places.push(place)?;
        Ok(())
    }

    /// The places in order.
    pub fn iter(&self) -> slice::Iter<'_, Place>
        ensures rest { iter_rest result ≡ place_list self.now }
        ensures bound { length (iter_rest result) < 2 ^ 64 }
        ensures runs { IterYieldsInOrder Place }
    {
        self.places.iter()
    }
}

/// A directive with its option words and its places.
pub type Directive = Node;

/// The directives of a block. A contract sees their list.
pub type Directives = Nodes;
