//! The family of a process, in which all members have run.
ghost use Rattle.std.specs.Prelude.{◌≡◌, ◌⊎◌, IfOk, IfErr, IsErrOf, codes};
ghost use Rattle.el_family.specs.Reports.{IsWhole, GrowsBeyond};

use crate::family::{Family, FamilyFault, MAX_MEMBERS};
use el_env::Env;
use el_words::{NoMemory, Word, Words};
use el_world::Answers;
use std::alloc::Global;

/// The family of a process with these words, in the empty environment and the directory `/`. Each member runs in
/// order of number, with this budget and plain answers.
///
/// Full exactly where there would be more than `MAX_MEMBERS` members. NoMemory where there is no memory for it.
pub(crate) fn whole_family(alloc: Global, words: Words, budget: u64) -> Result<Family, FamilyFault>
    ensures ok { IfOk result (λ family. IsWhole words budget family) }
    ensures full { IsErrOf result FamilyFault.Full → GrowsBeyond words budget }
    ensures only { IfErr result (λ fault. (fault ≡ FamilyFault.Full) ⊎ (fault ≡ FamilyFault.NoMemory)) }
{
    let mut family = Family::new(alloc, words, Env::new(alloc), root(alloc)?)?;
    for number in 0..MAX_MEMBERS {
        if number >= family.len() {
            return Ok(family);
        }
        family.run_member(number, Answers::new(alloc), budget)?;
    }
    Ok(family)
}

fn root(alloc: Global) -> Result<Word, NoMemory>
    ensures { IfOk result (λ root. root ≡ codes "/") }
{
    Word::of(alloc, b"/")
}
