//! The variables of this process.
ghost use Rattle.std.specs.Prelude.{◌≡◌, true, option_map, IfSome, IfOk};
ghost use Rattle.el_words.specs.Word.{HasNul};
ghost use Rattle.el_env.specs.Name.{is_good_name};
ghost use Rattle.el_env.specs.Variable.{pair_of};
ghost use Rattle.el_real.specs.Variables.{variable_of, AreVariables};

use el_env::{Env as Variables, Variable};
use el_words::{NoMemory, Words};
use memchr::memchr;
use std::alloc::Global;

/// The variables that the entries of an environment hold. Of two entries with one name the first counts; one without
/// a name and `=` is none. `NoMemory` where there is no memory for them.
pub fn variables_of(alloc: Global, entries: &Words) -> Result<Variables, NoMemory>
    ensures { IfOk result (AreVariables entries.now) }
{
    let mut variables = Vec::with_capacity(alloc, entries.len())?;
    for place in 0..entries.len() {
        if let Some(variable) = variable_of(entries.at(place)) {
            variables.push(variable)?;
        }
    }
    Variables::inherited(alloc, variables)
}

// The variable of an entry, or None where it has none.
fn variable_of(entry: &[u8]) -> Option<Variable<'_>>
    requires { HasNul entry.now → ⊥ }
    ensures good { IfSome result (λ variable. is_good_name variable.name.now ≡ true) }
    ensures split { option_map pair_of result ≡ variable_of entry.now }
{
    match memchr(b'=', entry) {
        Some(at) if at > 0 => Some(Variable {
            name: &entry[..at],
            value: &entry[at + 1..],
        }),
        _ => None,
    }
}
