//! What is made of a script's tokens, where it is known what each is.
ghost use Rattle.el_script.specs.Vocabulary.{Open, Close, at_start, tree_of, places_of, with_option, with_one_place};
ghost use Rattle.std.specs.Prelude.{◌≡◌, [], ◌∷◌, Some, OnOk};
ghost use Rattle.el_blocks.specs.Tokens.{shape_of};
ghost use Rattle.el_reader.specs.declared.role.Role.TheVariants as roles;
ghost use Rattle.el_reader.specs.declared.builder.Made.TheVariants.{Chain};
ghost use Rattle.el_reader.specs.Made.{built, begun, changed, with_item, put_word, made_inside, made_outside, command_last, made_place, with_group, made_closed, put, made_tree, builder_told, IsClosableMade};

use crate::role::{Part, Role};
use el_lex::Token;
use el_options::PlaceKind;
use el_tree::{Arg, Args, Group, Last, Node, Nodes, Place, Places, Tree};
use el_words::{NoMemory, Prog, Word, Words};
use std::alloc::Global;
use std::mem;

/// What is made of an open level so far.
#[derive(Drop)]
pub(crate) enum Made {
    /// The programs of a chain, of which the last may go on, and the items of the command behind them.
    Chain(Nodes, Option<Group>),
    /// The items of a block of values, or of a group.
    List(Group),
    /// A block of names.
    Names(Words),
    /// The directives of a block, of which the last may go on.
    Directives(Nodes),
}

/// What is made of a script so far: of the innermost level, and of those around it, from the outside inwards.
#[derive(Drop)]
pub(crate) struct Builder {
    pub(crate) made: Made,
    pub(crate) around: Vec<Made>,
}

impl Builder {
    /// Nothing is made yet.
    pub(crate) fn new(alloc: Global) -> Builder
        ensures { builder_told result ≡ built at_start }
    {
        Builder {
            made: Made::Chain(Nodes::new(alloc), None),
            around: Vec::new(alloc),
        }
    }

    /// Puts a token, which is this, behind the others. A command has an item.
    #[inline(always)]
    pub(crate) fn put(&mut self, alloc: Global, role: Role, token: Token) -> Result<(), NoMemory>
        requires { IsClosableMade (builder_told self.old).made }
        ensures { OnOk result (builder_told self.new ≡ put role (shape_of token) (builder_told self.old)) }
    {
        match token {
            Token::Word { word, .. } => self.made.put(alloc, role, word),
            Token::Open { .. } => self.open(alloc, role),
            Token::Close { .. } => self.close(),
        }
    }

    // An Open: the innermost level is one of those around.
    #[inline(never)]
    fn open(&mut self, alloc: Global, role: Role) -> Result<(), NoMemory>
        ensures { OnOk result (builder_told self.new ≡ put role Open (builder_told self.old)) }
    {
        self.made.open(alloc, role);
        let inner = Made::inside(alloc, role);
        self.around.push(mem::replace(&mut self.made, inner))?;
        Ok(())
    }

    // A Close: the innermost level is put in the one around it.
    #[inline(never)]
    fn close(&mut self) -> Result<(), NoMemory>
        requires { IsClosableMade (builder_told self.old).made }
        ensures { OnOk result (builder_told self.new ≡ put roles.Close Close (builder_told self.old)) }
    {
        if let Some(outer) = self.around.pop() {
            let inner = mem::replace(&mut self.made, outer);
            self.made.close(inner)?;
        }
        Ok(())
    }

    /// The tree, where all blocks are closed. A command has an item.
    pub(crate) fn tree(self, alloc: Global) -> Tree
        requires { IsClosableMade (builder_told self).made }
        ensures { result ≡ made_tree (builder_told self).made }
    {
        let Builder { made, .. } = self;
        match made {
            Made::Chain(nodes, command) => tree_of(nodes, command),
            _ => tree_of(Nodes::new(alloc), None),
        }
    }
}

impl Made {
    // Nothing is made yet of the level that an Open begins, which is this.
    fn inside(alloc: Global, role: Role) -> Made
        ensures { result ≡ made_inside role }
    {
        match role {
            Role::Own(Part::Block(PlaceKind::ProgramBlock)) => Made::Chain(Nodes::new(alloc), None),
            Role::Own(Part::Block(PlaceKind::NameBlock)) => Made::Names(Words::new(alloc)),
            Role::Own(Part::Block(PlaceKind::DirectiveBlock)) => Made::Directives(Nodes::new(
                alloc,
            )),
            _ => Made::List(Group::new(alloc)),
        }
    }

    // A word, which is this.
    #[inline(always)]
    fn put(&mut self, alloc: Global, role: Role, word: Word) -> Result<(), NoMemory>
        ensures { OnOk result (self.new ≡ put_word role word self.old) }
    {
        match role {
            Role::Program(program) => self.begin(alloc, program),
            Role::Own(Part::Value | Part::Option { .. } | Part::Waiting { .. }) => {
                self.put_option(&word)
            }
            Role::Own(Part::Place) => self.put_place(Place::Text(word)),
            Role::Item => self.put_item(alloc, word),
            Role::Own(Part::Block(_)) | Role::Group | Role::Close => Ok(()),
        }
    }

    // A program or directive begins.
    fn begin(&mut self, alloc: Global, prog: Prog) -> Result<(), NoMemory>
        ensures { OnOk result (self.new ≡ begun prog self.old) }
    {
        match self {
            Made::Chain(nodes, _) => nodes.push(Node {
                prog,
                options: Words::new(alloc),
                places: Places::new(alloc),
            }),
            Made::Directives(nodes) => nodes.push(Node {
                prog,
                options: Words::new(alloc),
                places: Places::new(alloc),
            }),
            Made::List(_) | Made::Names(_) => Ok(()),
        }
    }

    // An option word of the last program or directive.
    fn put_option(&mut self, word: &Word) -> Result<(), NoMemory>
        ensures { OnOk result (self.new ≡ changed (with_option word.now) self.old) }
    {
        match self {
            Made::Chain(nodes, _) => nodes.put_option(word),
            Made::Directives(nodes) => nodes.put_option(word),
            Made::List(_) | Made::Names(_) => Ok(()),
        }
    }

    // The next place of the last program or directive.
    #[inline(always)]
    fn put_place(&mut self, place: Place) -> Result<(), NoMemory>
        ensures { OnOk result (self.new ≡ changed (with_one_place (places_of (place ∷ []))) self.old) }
    {
        match self {
            Made::Chain(nodes, _) => nodes.put_place(place),
            Made::Directives(nodes) => nodes.put_place(place),
            Made::List(_) | Made::Names(_) => Ok(()),
        }
    }

    // An item, or a name.
    fn put_item(&mut self, alloc: Global, word: Word) -> Result<(), NoMemory>
        ensures { OnOk result (self.new ≡ with_item word self.old) }
    {
        match self {
            Made::Chain(_, command) => command
                .get_or_insert(Group::new(alloc))
                .push(Arg::Word(word)),
            Made::List(items) => items.push(Arg::Word(word)),
            Made::Names(names) => names.push(word.as_bytes()),
            Made::Directives(_) => Ok(()),
        }
    }

    // An Open, which is this: a group in a chain is one of a command.
    #[tactic(auto, using(el_tree::proofs::Lists::commands))]
    fn open(&mut self, alloc: Global, role: Role)
        ensures { self.new ≡ made_outside role self.old }
    {
        match (role, self) {
            (Role::Own(_), _) => {}
            (_, Made::Chain(_, command)) => {
                command.get_or_insert(Group::new(alloc));
            }
            _ => {}
        }
    }

    // A Close: this level is put in as a group, or as the next place of the last program or directive.
    fn close(&mut self, inner: Made) -> Result<(), NoMemory>
        requires { IsClosableMade inner }
        ensures { OnOk result (self.new ≡ made_closed self.old inner) }
    {
        match self {
            Made::Chain(_, Some(items)) => put_group(items, inner),
            Made::List(items) => put_group(items, inner),
            Made::Chain(nodes, None) => nodes.put_place(place_of(inner)),
            Made::Directives(nodes) => nodes.put_place(place_of(inner)),
            Made::Names(_) => Ok(()),
        }
    }
}

// Puts a group behind the items; what isn't one changes nothing there.
fn put_group(items: &mut Group, inner: Made) -> Result<(), NoMemory>
    ensures { OnOk result (items.new ≡ with_group items.old inner) }
{
    match inner {
        Made::List(inside) => items.push(Arg::Group(inside)),
        _ => Ok(()),
    }
}

// A level as a place.
fn place_of(made: Made) -> Place
    requires { IsClosableMade made }
    ensures { places_of (result ∷ []) ≡ made_place made }
{
    match made {
        Made::Chain(nodes, command) => Place::Block(tree_of(nodes, command)),
        Made::List(items) => Place::Values(items),
        Made::Names(names) => Place::Names(names),
        Made::Directives(nodes) => Place::Directives(nodes),
    }
}

// The tree of programs and the command behind them.
fn tree_of(nodes: Nodes, command: Option<Group>) -> Tree
    requires { IsClosableMade (Chain nodes command) }
    ensures { result ≡ tree_of nodes (command_last command) }
{
    let last = match command {
        Some(items) => Last::Command(Args::of_group(items)),
        None => Last::End,
    };
    Tree { nodes, last }
}
