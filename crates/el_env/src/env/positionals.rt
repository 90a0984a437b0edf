//! The positional parameters of an environment, set and read.
ghost use Rattle.std.specs.Prelude.{◌≡◌, ◌⊎◌, Some, None, IfOk, IfErr, OnOk, IsErrOf, ℕ, List, length};
ghost use Rattle.std.specs.FinMap as map;
ghost use Rattle.el_env.specs.Positionals.{with_positionals, IsPositional, ArePositionals, NoPositionals, positionals_of, count_of, numbered_of};

use crate::env::{Env, EnvFault};
use el_words::{NoMemory, Word, Words, parse_u64, put_u64};

/// The positional parameters of an environment.
#[derive(Drop)]
pub struct Positionals {
    pub zero: Word,
    pub args: Words,
}

impl Env {
    /// Sets `0` to `zero`, `1` and so on to the arguments, and `#` to their number. After an error some
    /// of these may be set, and every other name is as before.
    pub fn set_positionals(&mut self, zero: &Word, args: &Words) -> Result<(), NoMemory>
        ensures ok { OnOk result (self.new ≡ with_positionals zero.now args.now self.old) }
        ensures others { (name : List ℕ) → (IsPositional (length args.now) name → ⊥) → map.get self.new name ≡ map.get self.old name }
    {
        self.put(b"0", zero.as_bytes())?;
        let mut number = 0;
        for arg in args {
            number += 1;
            let name = put_u64(self.alloc, number)?;
            self.put(name.as_bytes(), arg)?;
        }
        let count = put_u64(self.alloc, number)?;
        self.put(b"#", count.as_bytes())
    }

    /// The positional parameters: `#` is the number of the arguments, `0` is the zeroth, and `1` and so
    /// on are the arguments. It is `NoFrame` exactly where `#` is no number, or one of the variables from
    /// `0` to that number isn't set.
    pub fn positionals(&self) -> Result<Positionals, EnvFault>
        ensures ok { IfOk result (λ p. ArePositionals self.now p.zero p.args) }
        ensures none { IsErrOf result EnvFault.NoFrame → NoPositionals self.now }
        ensures value { IfOk result (λ p. positionals_of self.now ≡ Some (p.zero, p.args)) }
        ensures no_value { IsErrOf result EnvFault.NoFrame → positionals_of self.now ≡ None }
        ensures only { IfErr result (λ e. (e ≡ EnvFault.NoFrame) ⊎ (e ≡ EnvFault.NoMemory)) }
    {
        let count = self.count().ok_or(EnvFault::NoFrame)?;
        let zero = self.get(b"0").ok_or(EnvFault::NoFrame)?;
        Ok(Positionals {
            zero: Word::of(self.alloc, zero)?,
            args: self.numbered(count)?,
        })
    }

    /// The number that `#` writes.
    fn count(&self) -> Option<u64>
        ensures { result ≡ count_of self.now }
    {
        parse_u64(self.get(b"#")?)
    }

    /// The variables from `1` to `count`, or `NoFrame` where one isn't set.
    fn numbered(&self, count: u64) -> Result<Words, EnvFault>
        ensures value { IfOk result (λ args. numbered_of count 1 self.now ≡ Some args) }
        ensures no_value { IsErrOf result EnvFault.NoFrame → numbered_of count 1 self.now ≡ None }
        ensures only { IfErr result (λ e. (e ≡ EnvFault.NoFrame) ⊎ (e ≡ EnvFault.NoMemory)) }
    {
        let mut args = Words::new(self.alloc);
        for place in 0..count {
            let name = put_u64(self.alloc, place + 1)?;
            let arg = self.get(name.as_bytes()).ok_or(EnvFault::NoFrame)?;
            args.push(arg)?;
        }
        Ok(args)
    }
}
