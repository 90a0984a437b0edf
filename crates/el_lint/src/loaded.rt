//! Programs of the chain that a command of the system starts.
#![tactic(auto, using(crate::proofs::Gathering::gathering))]

ghost use Rattle.std.specs.Prelude.{◌≡◌, ◌++◌, None, OnOk};
ghost use Rattle.el_lint.specs.Loaders.{runs_chains, found_or_named, loaded_from, loaded_lints};

use crate::lint::Lint;
use el_tree::{Arg, Args};
use el_words::{NoMemory, Prog, name_of};

/// Puts that of a command behind, where it has one.
pub(crate) fn put_loaded(args: &Args, lints: &mut Vec<Lint>) -> Result<(), NoMemory>
    ensures { OnOk result (lints.new.items ≡ lints.old.items ++ loaded_lints args.now) }
{
    if let Some(program) = loaded(args) {
        lints.push(Lint::Loaded { program })?;
    }
    Ok(())
}

// The first program that a word before a block names.
fn loaded(args: &Args) -> Option<Prog>
    ensures { result ≡ loaded_from None args.now }
{
    let mut found = None;
    for item in args.iter() {
        match item {
            Arg::Group(_) => return found,
            Arg::Word(word) if runs_chains(word.as_bytes()) => return None,
            Arg::Word(word) => found = found_or_named(found, word.as_bytes()),
        }
    }
    None
}

// A command that goes on with a chain by itself.
#[tactic(auto, unfolding(crate::specs::Loaders::runs_chains))]
fn runs_chains(word: &[u8]) -> bool
    ensures { result ≡ runs_chains word.now }
{
    word == b"execline".as_slice() || word == b"elglob".as_slice() || word == b"elgetopt".as_slice()
}

fn found_or_named(found: Option<Prog>, word: &[u8]) -> Option<Prog>
    ensures { result ≡ found_or_named found word.now }
{
    match found {
        Some(program) => Some(program),
        None => name_of(word),
    }
}
