//! A script that is read token by token: what each token is, or the first fault.
ghost use Rattle.std.specs.Prelude.{IfOk, OnOk};
ghost use Rattle.el_blocks.specs.Tokens.{Open, Close, shape_of};
ghost use Rattle.el_reader.specs.declared.role.Role.TheVariants as roles;
ghost use Rattle.el_reader.specs.Inspections.{open_levels, AreInForce, HasRead, Goes, IsEnded, IsJudged};

use crate::level::Level;
use crate::next::{Next, next_in};
use crate::role::Role;
use crate::scope::{FixedPlaces, TestScope};
use crate::token_reader::TokenReader;
use el_lex::Token;
use el_tree::PlacedFault;
use el_words::NoMemory;
use std::alloc::Global;
use std::mem;

/// A level that another one is open in, and how many of the members that are kept are in force in it.
#[derive(Drop)]
pub(crate) struct Outer {
    pub(crate) level: Level,
    pub(crate) members: usize,
}

/// What is known of a script that is read token by token: the innermost level, those around it, from the outside inwards, and the
/// members in force.
#[derive(Drop)]
pub struct Inspection {
    pub(crate) level: Level,
    pub(crate) around: Vec<Outer>,
    pub(crate) scope: TestScope,
}

impl TokenReader for Inspection {
    ghost has_read = { HasRead };

    ghost depth = { open_levels };

    fn new(alloc: Global, places: FixedPlaces) -> Result<Inspection, NoMemory> {
        Ok(Inspection {
            level: Level::Fresh,
            around: Vec::new(alloc),
            scope: TestScope::new(alloc, places)?,
        })
    }

    #[inline(always)]
    fn take(&mut self, alloc: Global, token: Token) -> Result<Option<PlacedFault>, NoMemory> {
        Ok(self.read(alloc, &token)?.err())
    }
}

impl Inspection {
    /// Reads a token, which is this, or says what is wrong with it.
    #[inline(always)]
    pub(crate) fn read(
        &mut self,
        alloc: Global,
        token: &Token,
    ) -> Result<Result<Role, PlacedFault>, NoMemory>
        requires { AreInForce self.old }
        ensures { IfOk result (IsJudged self.old (shape_of token.now) self.new) }
    {
        // A word among items is one, and changes nothing of what is known.
        if let (Level::Items, Token::Word { .. }) = (&self.level, token) {
            return Ok(Ok(Role::Item));
        }
        match self.level.judge(&self.scope, next_in(token)) {
            Err(found) => Ok(Err(found)),
            Ok(role) => {
                self.go_on(alloc, role, token)?;
                Ok(Ok(role))
            }
        }
    }

    // Reads a token that isn't wrong, which is this.
    #[inline(always)]
    fn go_on(&mut self, alloc: Global, role: Role, token: &Token) -> Result<(), NoMemory>
        requires { AreInForce self.old }
        ensures { OnOk result (Goes self.old role (shape_of token.now) self.new) }
    {
        match token {
            Token::Word { word, .. } => self.level.take(alloc, role, word, &mut self.scope),
            Token::Open { .. } => self.open(alloc, role),
            Token::Close { .. } => self.close(),
        }
    }

    // An Open: the innermost level is one of those around. Before a group the program that it stands behind is whole.
    #[inline(never)]
    fn open(&mut self, alloc: Global, role: Role) -> Result<(), NoMemory>
        requires { AreInForce self.old }
        ensures { OnOk result (Goes self.old role Open self.new) }
    {
        self.level.command(alloc, role, &mut self.scope)?;
        let outer = Outer {
            level: mem::replace(&mut self.level, Level::inside(alloc, role)),
            members: self.scope.members.len(),
        };
        self.around.push(outer)?;
        Ok(())
    }

    // A Close: the innermost level is closed in the one around it, and what it marks is no longer in force.
    #[inline(never)]
    fn close(&mut self) -> Result<(), NoMemory>
        requires { AreInForce self.old }
        ensures { OnOk result (Goes self.old roles.Close Close self.new) }
    {
        if let Some(outer) = self.around.pop() {
            self.scope.members.truncate(outer.members);
            let block = mem::replace(&mut self.level, outer.level);
            self.level.close(block)?;
        }
        Ok(())
    }

    /// What is wrong with the end.
    pub fn end(&self) -> Option<PlacedFault>
        ensures { IsEnded self.now result }
    {
        self.level.judge(&self.scope, Next::Over).err()
    }
}
