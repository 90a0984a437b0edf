//! The variables of an environment that has some.
ghost use Rattle.std.specs.Prelude.{◌≡◌, ℕ, List, ◌++◌, IfOk, IfSome, OnOk, OnErr, map as mapped};
ghost use Rattle.std.specs.Option.{option_copied};
ghost use Rattle.std.specs.FinMap as map;
ghost use Rattle.el_words.specs.Word.{HasNul};
ghost use Rattle.el_env.specs.Name.{IsName, NamesAreGood};
ghost use Rattle.el_env.specs.Entries.{named};
ghost use Rattle.el_env.specs.Variable.{pair_of};
ghost use Rattle.el_env.specs.Inherited.{listed, AreRising, placed, HaveGoodNames};

use super::Variable;
use super::inherited::Inherited;
use el_words::{NoMemory, Word};
use indexmap::IndexMap;
use std::alloc::Global;
use std::marker::Model;

/// The variables of an environment, in memory of their own. A contract sees what the environment's do.
#[derive(Drop)]
pub(super) struct Table {
    alloc: Global,
    // Those that were set here. They hide inherited ones of the same name.
    vars: IndexMap<Vec<u8>, Word>,
    // Those that came with the process, of which a start reads many and a script few. Of two with one
    // name the first counts.
    inherited: Inherited,
}

impl Model for Table {
    ghost use Rattle.el_env.specs.Vars.{Vars, vars_code};
    ghost use Rattle.el_env.specs.Entries.{named};
    ghost use Rattle.el_env.specs.Name.{NamesAreGood};
    ghost use Rattle.std.specs.FinMap as map;
    ghost use Rattle.std.specs.Prelude.{◌++◌};

    ghost Value = { Vars };

    ghost coded = { vars_code };

    ghost view = { λ t. map.from_entries (named t.vars.entries ++ t.inherited) };

    ghost invariant = { λ t. NamesAreGood (map.from_entries (named t.vars.entries ++ t.inherited)) };
}

impl Table {
    /// No variables. Later calls take their memory from `alloc`.
    pub(super) fn new(alloc: Global) -> Table
        ensures { result ≡ map.empty }
    {
        Table {
            alloc,
            vars: IndexMap::new(alloc),
            inherited: Inherited::new(alloc),
        }
    }

    /// The variables that a process was started with: of two with one name the first counts.
    pub(super) fn inherited(alloc: Global, variables: Vec<Variable<'_>>) -> Result<Table, NoMemory>
        requires { HaveGoodNames (mapped pair_of variables.items) }
        ensures { IfOk result (λ table. table ≡ listed (mapped pair_of variables.entry.items)) }
    {
        let variables = each_once(variables)?;
        Ok(Table {
            alloc,
            vars: IndexMap::new(alloc),
            inherited: Inherited::of(alloc, &variables)?,
        })
    }

    /// The value of the variable `name`, or None exactly where it isn't set. No byte of it is NUL.
    pub(super) fn get(&self, name: &[u8]) -> Option<&[u8]>
        ensures value { option_copied result ≡ map.get self.now name.now }
        ensures no_nul { IfSome result (λ value. HasNul value.now → ⊥) }
    {
        match self.vars.get(name) {
            Some(value) => Some(value.as_bytes()),
            None => self.inherited.get(name),
        }
    }

    /// Sets a name that is known to be good and without NUL. After an error nothing is changed.
    pub(super) fn insert(&mut self, name: Vec<u8>, value: Word) -> Result<(), NoMemory>
        requires { IsName name.items }
        ensures ok { OnOk result (self.new ≡ map.insert self.old name.items value) }
        ensures err { OnErr result (self.new ≡ self.old) }
    {
        self.vars.insert(name, value)?;
        Ok(())
    }

    /// Removes the variable `name`, where it is set.
    pub(super) fn remove(&mut self, name: &[u8])
        ensures { self.new ≡ map.remove self.old name.now }
    {
        self.vars.swap_remove(name);
        self.inherited.remove(name);
    }

    /// The same variables again.
    pub(super) fn copy(&self) -> Result<Table, NoMemory>
        ensures { IfOk result (λ copy. copy ≡ self.now) }
    {
        Ok(Table {
            alloc: self.alloc,
            vars: self.vars.clone()?,
            inherited: self.inherited.copy()?,
        })
    }

    /// Each name that is set is a good name without NUL. A call does nothing but tell this to a proof.
    pub(super) fn names_are_good(&self)
        ensures { NamesAreGood self.now }
    {
        // A proof knows what holds of the fields where one is read.
        let _alloc = self.alloc;
    }

    /// The variables, each once, their names in rising byte order.
    pub(super) fn sorted(&self) -> Result<Vec<Variable<'_>>, NoMemory>
        ensures { IfOk result (λ sorted. mapped pair_of sorted.items ≡ map.entries self.now) }
    {
        let mut sorted = self.inherited.lend(self.vars.len())?;
        let mut own = Vec::with_capacity(self.alloc, self.vars.len())?;
        lend_set(&self.vars, &mut own)?;
        // Of an environment few were set here, as a rule: each goes where it belongs among the others.
        while let Some(variable) = own.pop() {
            put_in_order(&mut sorted, variable)?;
        }
        Ok(sorted)
    }
}

// The first of each name, the names in rising byte order.
fn each_once<'a>(variables: Vec<Variable<'a>>) -> Result<Vec<Variable<'a>>, NoMemory>
    ensures { IfOk result (λ once. mapped pair_of once.items ≡ map.entries (listed (mapped pair_of variables.entry.items))) }
{
    let mut once = variables;
    once.sort_by_key(|variable| variable.name)?;
    once.dedup_by_key(|variable| variable.name);
    Ok(once)
}

// Puts all that were set behind `variables`, lent.
fn lend_set<'a>(
    vars: &'a IndexMap<Vec<u8>, Word>,
    variables: &mut Vec<Variable<'a>>,
) -> Result<(), NoMemory>
    requires { NamesAreGood (map.from_entries (named vars.now.entries)) }
    ensures { OnOk result (mapped pair_of variables.new.items ≡ mapped pair_of variables.old.items ++ named vars.now.entries) }
{
    for (name, value) in vars.iter() {
        variables.push(Variable {
            name,
            value: value.as_bytes(),
        })?;
    }
    Ok(())
}

// Puts a variable among others whose names rise, in place of the one with its name, where there is one.
fn put_in_order<'a>(
    variables: &mut Vec<Variable<'a>>,
    variable: Variable<'a>,
) -> Result<(), NoMemory>
    requires { AreRising (mapped pair_of variables.old.items) }
    ensures { OnOk result (mapped pair_of variables.new.items ≡ placed (pair_of variable.entry) (mapped pair_of variables.old.items)) }
{
    match variables.binary_search_by_key(&variable.name, |other| other.name) {
        Ok(at) => variables[at] = variable,
        Err(at) => variables.insert(at, variable)?,
    }
    Ok(())
}
