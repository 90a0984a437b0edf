//! The environment, and why it isn't changed or read as asked.
ghost use Rattle.std.specs.Prelude.{◌≡◌, ◌⊎◌, None, Err, IsTrue, IfOk, IfErr, IfSome, OnOk, OnErr, IsErrOf, map as mapped};
ghost use Rattle.std.specs.Option.{option_copied};
ghost use Rattle.std.specs.FinMap as map;
ghost use Rattle.std.specs.Str.{bytes_eq};
ghost use Rattle.el_words.specs.Word.{HasNul};
ghost use Rattle.el_env.specs.Name.{is_good_name, IsBadName, IsName, NamesAreGood};
ghost use Rattle.el_env.specs.Variable.{pair_of};
ghost use Rattle.el_env.specs.Inherited.{listed, HaveGoodNames};

mod frames;
mod inherited;
mod marks;
mod place;
mod positionals;
mod table;
mod variable;

use el_words::{NoMemory, Word, Words};
pub use positionals::Positionals;
use std::alloc::{AllocError, AllocFailed, Global};
use std::marker::Model;
use table::Table;
use thiserror::Error;
pub use variable::Variable;

/// Why an environment isn't changed or read as asked.
#[derive(Clone, Copy, Debug, PartialEq, Eq, Error)]
pub enum EnvFault {
    /// The name is empty or holds `=`.
    #[error("bad variable name")]
    BadName,
    /// There is no memory for the variable.
    #[error("no memory")]
    NoMemory,
    /// A frame can't be pushed: a name stands at the greatest depth already.
    #[error("frame too deep")]
    TooDeep,
    /// `#` is no number, or one of the variables from `0` to that number isn't set.
    #[error("no positional parameters")]
    NoFrame,
}

impl From<NoMemory> for EnvFault {
    ghost use Rattle.std.specs.Prelude.{◌≡◌};
    ghost use Rattle.el_env.specs.declared.env.EnvFault.TheVariants.{NoMemory as no_memory};

    ghost from_gives = { λ _ e. e ≡ no_memory };

    fn from(_: NoMemory) -> Self {
        EnvFault::NoMemory
    }
}

impl From<AllocError> for EnvFault {
    ghost use Rattle.std.specs.Prelude.{◌≡◌};
    ghost use Rattle.el_env.specs.declared.env.EnvFault.TheVariants.{NoMemory};

    ghost from_gives = { λ _ e. e ≡ NoMemory };

    fn from(_: AllocError) -> Self {
        EnvFault::NoMemory
    }
}

impl<T: Drop> From<AllocFailed<T>> for EnvFault {
    ghost use Rattle.std.specs.Prelude.{◌≡◌};
    ghost use Rattle.el_env.specs.declared.env.EnvFault.TheVariants.{NoMemory};

    ghost from_gives = { λ _ e. e ≡ NoMemory };

    fn from(_: AllocFailed<T>) -> Self {
        EnvFault::NoMemory
    }
}

/// The variables of a process. A contract sees a finite map from names to words; the order in which
/// they were set shows nowhere.
#[derive(Drop)]
pub struct Env {
    alloc: Global,
    // None in one that never had a variable, as most of a recorded run: it takes no memory.
    table: Option<Box<Table>>,
}

impl Model for Env {
    ghost use Rattle.el_env.specs.Vars.{Vars, vars_code};
    ghost use Rattle.el_env.specs.Table.{tabled};

    ghost Value = { Vars };

    ghost coded = { vars_code };

    ghost view = { λ e. tabled e.table };
}

impl Env {
    /// No variables. Later calls take their memory from `alloc`.
    pub fn new(alloc: Global) -> Env
        ensures { result ≡ map.empty }
    {
        Env { alloc, table: None }
    }

    /// The variables that a process was started with: of two with one name the first counts. `NoMemory`
    /// where there is no memory for them.
    pub fn inherited(alloc: Global, variables: Vec<Variable<'_>>) -> Result<Env, NoMemory>
        requires { HaveGoodNames (mapped pair_of variables.items) }
        ensures { IfOk result (λ env. env ≡ listed (mapped pair_of variables.entry.items)) }
    {
        if variables.is_empty() {
            return Ok(Env::new(alloc));
        }
        let table = Table::inherited(alloc, variables)?;
        Ok(Env {
            alloc,
            table: Some(Box::new(alloc, table)?),
        })
    }

    /// The value of the variable `name`, or None exactly where it isn't set. No byte of it is NUL.
    pub fn get(&self, name: &[u8]) -> Option<&[u8]>
        ensures value { option_copied result ≡ map.get self.now name.now }
        ensures no_nul { IfSome result (λ value. HasNul value.now → ⊥) }
    {
        match &self.table {
            Some(table) => table.get(name),
            None => None,
        }
    }

    /// Sets the variable `name`. It is `BadName` exactly where the name is empty or holds `=`. After an
    /// error nothing is changed.
    pub fn set(&mut self, name: Word, value: Word) -> Result<(), EnvFault>
        ensures ok { OnOk result (self.new ≡ map.insert self.old name value) }
        ensures good { OnOk result (IsBadName name → ⊥) }
        ensures bad { IsErrOf result EnvFault.BadName → IsBadName name }
        ensures refused { IsBadName name → result ≡ Err EnvFault.BadName }
        ensures only { IfErr result (λ e. (e ≡ EnvFault.BadName) ⊎ (e ≡ EnvFault.NoMemory)) }
        ensures err { OnErr result (self.new ≡ self.old) }
    {
        let name = name.as_bytes();
        if !is_good_name(name) {
            return Err(EnvFault::BadName);
        }
        Ok(self.insert(name, value)?)
    }

    /// Sets the variable `name`, which is known to be a good name without NUL. After an error nothing
    /// is changed.
    pub fn insert(&mut self, name: &[u8], value: Word) -> Result<(), NoMemory>
        requires good { IsTrue (is_good_name name.now) }
        requires no_nul { HasNul name.now → ⊥ }
        ensures ok { OnOk result (self.new ≡ map.insert self.old name.now value) }
        ensures err { OnErr result (self.new ≡ self.old) }
    {
        let name = name.to_vec(self.alloc)?;
        self.store(name, value)
    }

    /// Removes the variable `name`, where it is set.
    pub fn unset(&mut self, name: &[u8])
        ensures { self.new ≡ map.remove self.old name.now }
    {
        let Some(table) = &mut self.table else {
            return;
        };
        table.remove(name);
    }

    /// Removes every name but `name`. After an error nothing is changed.
    pub fn keep_only(&mut self, name: &[u8]) -> Result<(), NoMemory>
        ensures ok { OnOk result (self.new ≡ map.retain_keys self.old (λ k. bytes_eq k name.now)) }
        ensures err { OnErr result (self.new ≡ self.old) }
    {
        self.names_are_good();
        let mut kept = Env::new(self.alloc);
        if let Some(value) = self.get(name) {
            kept.put(name, value)?;
        }
        *self = kept;
        Ok(())
    }

    /// The same variables again.
    pub fn copy(&self) -> Result<Env, NoMemory>
        ensures { IfOk result (λ copy. copy ≡ self.now) }
    {
        let Some(table) = &self.table else {
            return Ok(Env::new(self.alloc));
        };
        let table = table.copy()?;
        Ok(Env {
            alloc: self.alloc,
            table: Some(Box::new(self.alloc, table)?),
        })
    }

    /// Each name that is set is a good name without NUL. A call does nothing but tell this to a proof.
    pub fn names_are_good(&self)
        ensures { NamesAreGood self.now }
    {
        let Some(table) = &self.table else {
            return;
        };
        table.names_are_good();
    }

    /// The names that are set, each once, in rising byte order.
    pub fn names(&self) -> Result<Words, NoMemory>
        ensures { IfOk result (λ names. names ≡ map.keys self.now) }
    {
        let sorted = self.sorted()?;
        let mut names = Words::new(self.alloc);
        for variable in &sorted {
            names.push(variable.name)?;
        }
        Ok(names)
    }

    /// The variables, each once, their names in rising byte order.
    pub fn sorted(&self) -> Result<Vec<Variable<'_>>, NoMemory>
        ensures { IfOk result (λ sorted. mapped pair_of sorted.items ≡ map.entries self.now) }
    {
        match &self.table {
            Some(table) => table.sorted(),
            None => Ok(Vec::new(self.alloc)),
        }
    }

    // Sets a name that is known to be good and without NUL to a copy of `value`, which is known to hold
    // none either.
    fn put(&mut self, name: &[u8], value: &[u8]) -> Result<(), NoMemory>
        requires name { IsName name.now }
        requires value { HasNul value.now → ⊥ }
        ensures ok { OnOk result (self.new ≡ map.insert self.old name.now value.now) }
        ensures err { OnErr result (self.new ≡ self.old) }
    {
        let name = name.to_vec(self.alloc)?;
        let value = Word::of(self.alloc, value)?;
        self.store(name, value)
    }

    // Sets a name that is known to be good and without NUL.
    fn store(&mut self, name: Vec<u8>, value: Word) -> Result<(), NoMemory>
        requires { IsName name.items }
        ensures ok { OnOk result (self.new ≡ map.insert self.old name.items value) }
        ensures err { OnErr result (self.new ≡ self.old) }
    {
        if let Some(table) = &mut self.table {
            return table.insert(name, value);
        }
        self.table = Some(table_of(self.alloc, name, value)?);
        Ok(())
    }
}

// A table for an environment's first variable.
#[inline(never)]
fn table_of(alloc: Global, name: Vec<u8>, value: Word) -> Result<Box<Table>, NoMemory>
    requires { IsName name.items }
    ensures { IfOk result (λ table. table.value ≡ map.insert map.empty name.items value) }
{
    let mut table = Table::new(alloc);
    table.insert(name, value)?;
    Ok(Box::new(alloc, table)?)
}

/// Whether a variable can have the name: it isn't empty and holds no `=`.
pub fn is_good_name(name: &[u8]) -> bool
    ensures { result ≡ is_good_name name.now }
{
    !name.is_empty() && !name.contains(&b'=')
}
