//! Whether words, variables and ends are the same.
ghost use Rattle.std.specs.Prelude.{◌≡◌, IfOk, map as mapped};
ghost use Rattle.std.specs.Bool.{Decides};
ghost use Rattle.el_env.specs.Variable.{pair_of};
ghost use Rattle.el_trace.specs.Same.{same_pair};

use el_env::{Env, Variable};
use el_words::{NoMemory, Words};
use el_world::Handle;

/// Whether two lists have the same words.
pub(crate) fn same_words(one: &Words, other: &Words) -> bool
    ensures { Decides result (one.now ≡ other.now) }
{
    if one.len() != other.len() {
        return false;
    }
    for place in 0..one.len() {
        if one.at(place) != other.at(place) {
            return false;
        }
    }
    true
}

/// Whether two environments have the same variables, with the same values.
pub(crate) fn same_env(one: &Env, other: &Env) -> Result<bool, NoMemory>
    ensures { IfOk result (λ same. Decides same (one.now ≡ other.now)) }
{
    let ones = one.sorted()?;
    let others = other.sorted()?;
    Ok(same_variables(&ones, &others))
}

// Whether two lists have the same names and values.
fn same_variables(ones: &[Variable<'_>], others: &[Variable<'_>]) -> bool
    ensures { Decides result (mapped pair_of ones.now ≡ mapped pair_of others.now) }
{
    if ones.len() != others.len() {
        return false;
    }
    for place in 0..ones.len() {
        if !same_variable(&ones[place], &others[place]) {
            return false;
        }
    }
    true
}

// Whether two variables have the same name and value.
fn same_variable(one: &Variable<'_>, other: &Variable<'_>) -> bool
    ensures { result ≡ same_pair (pair_of one.now) (pair_of other.now) }
{
    one.name == other.name && one.value == other.value
}

/// Whether a process is started with the same ends.
pub(crate) fn same_ends(one: &[Option<Handle>; 3], other: &[Option<Handle>; 3]) -> bool
    ensures { Decides result (one.now ≡ other.now) }
{
    one == other
}
