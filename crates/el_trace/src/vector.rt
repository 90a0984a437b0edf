//! The words of an accepted script.
ghost use Rattle.el_script.specs.Vocabulary.{spelled, words_value, positional_pairs, Tree, written, MeetsAll};
ghost use Rattle.std.specs.Prelude.{◌≡◌, ◌<◌, ◌^◌, length, IfOk, OnOk};
ghost use Rattle.el_check.specs.declared.params.Params.{Params as ParamsValue};
ghost use Rattle.el_check.specs.Scripts.{first_marks, first_scope, IsAcceptedScript};
ghost use Rattle.el_check.specs.Operands.{tree_words};

use el_blocks::spell;
use el_check::Params;
use el_env::Positionals;
use el_lex::lex;
use el_subst::{Subst, apply_to};
use el_words::{NoMemory, Words};
use std::alloc::Global;

/// The words of a script that is accepted, with its positional parameters put in where `params` says so.
pub(crate) fn script_words(
    alloc: Global,
    params: Params,
    script: &[u8],
    start: &Positionals,
) -> Result<Words, NoMemory>
    ensures words { IfOk result (λ words. (tree : Tree) → IsAcceptedScript params script.now tree → words ≡ tree_words (first_scope params start.now.zero start.now.args) tree) }
    ensures meets { OnOk result (MeetsAll (first_scope params start.now.zero start.now.args) (first_marks params)) }
{
    let words = spelled_script(alloc, script)?;
    match params {
        Params::Subst(least) => put_in(alloc, start, least, words),
        Params::Frame | Params::Leave => Ok(words),
    }
}

// The words that a script is spelled as. An accepted one has no fault, so that only memory can be wanting.
fn spelled_script(alloc: Global, script: &[u8]) -> Result<Words, NoMemory>
    ensures { IfOk result (λ words. (params : ParamsValue) (tree : Tree) → IsAcceptedScript params script.now tree → words ≡ spelled 0 (written tree)) }
{
    let Ok(tokens) = lex(alloc, script) else {
        return Err(NoMemory);
    };
    let Ok(words) = spell(alloc, &tokens) else {
        return Err(NoMemory);
    };
    Ok(words)
}

// The words with the positional parameters put in.
fn put_in(alloc: Global, start: &Positionals, least: u64, words: Words) -> Result<Words, NoMemory>
    ensures words { IfOk result (λ made. made ≡ words_value (positional_pairs start.now.zero start.now.args least) words) }
    ensures few { length start.now.args < 2 ^ 64 }
    ensures small { least < 2 ^ 64 }
{
    prove!(start.args.len() <= usize::MAX);
    let mut subst = Subst::new(alloc);
    subst.add_positionals(start, least)?;
    apply_to(alloc, &subst, words)
}
