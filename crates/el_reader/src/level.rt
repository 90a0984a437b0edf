//! Open levels: what a token is in one, and what becomes of it.
#![tactic(auto, using(crate::proofs::Told::levels))]

ghost use Rattle.std.specs.Prelude.{◌≡◌, OnOk};
ghost use Rattle.el_tree.specs.Steps.{goes_on};
ghost use Rattle.el_reader.specs.Inspections.{scope_told, IsMore, scoped_told};
ghost use Rattle.el_reader.specs.Roles.{next_told, bare_role};
ghost use Rattle.el_reader.specs.Known.{head_judged, role_judged, level_judged, with_word, owned, begun, level_outside, level_inside, level_closed, with_block};

use crate::faults::{directive_fault, name_fault, verdict};
use crate::head::Head;
use crate::member::{Member, marks_directives, marks_names};
use crate::next::Next;
use crate::role::{Part, Role};
use crate::scope::TestScope;
use el_options::PlaceKind;
use el_tree::{Mark, PlacedFault};
use el_words::{NoMemory, Prog, Word, name_of};
use std::alloc::Global;

/// What is known of an open level, but for what is open in it.
#[derive(Drop)]
pub(crate) enum Level {
    /// A chain of which nothing is read.
    Fresh,
    /// A chain, by the program that it has come to.
    Program(Head),
    /// Words and groups, of which none is wrong: a command, a block of values, or a group.
    Items,
    /// A block of names: what they mark.
    Names(Member),
    /// A block of directives: what the finished ones mark, and the one that it has come to.
    Directives(Member, Option<Head>),
}

impl Level {
    /// What comes next is, or what is wrong with it, where these members are in force.
    #[inline(always)]
    pub(crate) fn judge(&self, scope: &TestScope, next: Next<'_>) -> Result<Role, PlacedFault>
        ensures { result ≡ level_judged (scope_told scope.now) self.now (next_told next.entry) }
    {
        match self {
            Level::Items => Ok(bare_role(false, next)),
            Level::Program(head) => head_role(head, scope, false, goes_on(head.program), next),
            Level::Fresh => Ok(bare_role(true, next)),
            Level::Names(_) => verdict(name_fault(next), bare_role(false, next)),
            Level::Directives(_, None) => verdict(directive_fault(next), bare_role(true, next)),
            Level::Directives(_, Some(head)) => head_role(head, scope, true, true, next),
        }
    }

    /// Reads a word, which is this.
    #[inline(always)]
    pub(crate) fn take(
        &mut self,
        alloc: Global,
        role: Role,
        word: &Word,
        scope: &mut TestScope,
    ) -> Result<(), NoMemory>
        ensures goes { OnOk result (scoped_told self.new scope.new ≡ with_word role word.now (scoped_told self.old scope.old)) }
        ensures more { OnOk result (IsMore scope.old scope.new) }
    {
        match role {
            Role::Own(part) => {
                self.own(part, word)?;
                Ok(())
            }
            Role::Program(program) => self.begin(alloc, program, scope),
            Role::Item => match self {
                Level::Names(names) => names.mark(word.copy()?, Mark::Many),
                _ => self.command(alloc, role, scope),
            },
            Role::Group | Role::Close => Ok(()),
        }
    }

    // A word of the last program or directive, to which it is this.
    #[inline(always)]
    fn own(&mut self, part: Part, word: &Word) -> Result<(), NoMemory>
        ensures { OnOk result (self.new ≡ owned self.old part word.now) }
    {
        match self {
            Level::Program(head) => head.take(part, word)?,
            Level::Directives(_, Some(head)) => head.take(part, word)?,
            _ => {}
        }
        Ok(())
    }

    // A program or directive begins. The program before it is whole: what it marks is in force.
    #[inline(never)]
    fn begin(&mut self, alloc: Global, program: Prog, scope: &mut TestScope) -> Result<(), NoMemory>
        ensures goes { OnOk result (scoped_told self.new scope.new ≡ begun program (scoped_told self.old scope.old)) }
        ensures more { OnOk result (IsMore scope.old scope.new) }
    {
        let next = Head::new(alloc, program);
        match self {
            Level::Program(head) => {
                scope.enter(head.take_marks(alloc))?;
                *head = next;
            }
            Level::Directives(member, current) => {
                if let Some(head) = current {
                    member.add(head.take_marks(alloc))?;
                }
                *current = Some(next);
            }
            _ => *self = Level::Program(next),
        }
        Ok(())
    }

    /// Behind a token that is this: what is no program's own is one of a command. The program before it is whole, and what it
    /// marks is in force.
    #[inline(always)]
    pub(crate) fn command(
        &mut self,
        alloc: Global,
        role: Role,
        scope: &mut TestScope,
    ) -> Result<(), NoMemory>
        ensures goes { OnOk result (scoped_told self.new scope.new ≡ level_outside role (scoped_told self.old scope.old)) }
        ensures more { OnOk result (IsMore scope.old scope.new) }
    {
        if let Role::Own(_) = role {
            return Ok(());
        }
        match self {
            Level::Program(head) => {
                scope.enter(head.take_marks(alloc))?;
                *self = Level::Items;
            }
            Level::Fresh => *self = Level::Items,
            Level::Items | Level::Names(_) | Level::Directives(..) => {}
        }
        Ok(())
    }

    /// The level that an Open begins, which is this.
    pub(crate) fn inside(alloc: Global, role: Role) -> Level
        ensures { result ≡ level_inside role }
    {
        match role {
            Role::Own(Part::Block(PlaceKind::ProgramBlock)) => Level::Fresh,
            Role::Own(Part::Block(PlaceKind::NameBlock)) => Level::Names(Member::new(alloc, false)),
            Role::Own(Part::Block(PlaceKind::DirectiveBlock)) => {
                Level::Directives(Member::new(alloc, false), None)
            }
            _ => Level::Items,
        }
    }

    /// Reads the Close of a level that is open in this one.
    pub(crate) fn close(&mut self, block: Level) -> Result<(), NoMemory>
        ensures { OnOk result (self.new ≡ level_closed self.old block) }
    {
        match self {
            Level::Program(head) => close_in(head, block)?,
            Level::Directives(_, Some(head)) => close_in(head, block)?,
            _ => {}
        }
        Ok(())
    }
}

// What comes next behind a program's name is, or what is wrong with it.
fn head_role(
    head: &Head,
    scope: &TestScope,
    in_directives: bool,
    may_begin: bool,
    next: Next<'_>,
) -> Result<Role, PlacedFault>
    ensures { result ≡ role_judged (head_judged (scope_told scope.now) head.now in_directives (next_told next.entry)) (bare_role may_begin (next_told next.entry)) }
{
    match head.judge(scope, in_directives, next)? {
        Some(part) => Ok(Role::Own(part)),
        None => Ok(bare_role(may_begin, next)),
    }
}

// What comes next where it is no program's own, and a word may begin a program or not.
fn bare_role(may_begin: bool, next: Next<'_>) -> Role
    ensures { result ≡ bare_role may_begin (next_told next.entry) }
{
    match next {
        Next::Text(text) if may_begin => name_of(text).map_or(Role::Item, Role::Program),
        Next::Text(_) => Role::Item,
        Next::Group => Role::Group,
        Next::Over => Role::Close,
    }
}

// Whether a word behind a program may begin another one: behind exit stands a command.
fn goes_on(program: Prog) -> bool
    ensures { result ≡ goes_on program }
{
    program != Prog::Exit
}

// Puts a block at the next place of a program or directive.
fn close_in(head: &mut Head, block: Level) -> Result<(), NoMemory>
    ensures { OnOk result (head.new ≡ with_block head.old block) }
{
    match block {
        Level::Names(names) => {
            if marks_names(head.program) {
                head.marks = names;
            }
        }
        Level::Directives(mut member, current) => {
            if marks_directives(head.program) {
                if let Some(last) = current {
                    member.add(last.marks)?;
                }
                head.marks = member;
            }
        }
        _other => {}
    }
    head.place_read();
    Ok(())
}
