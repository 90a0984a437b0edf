//! Values in a command where they are more than its words.
#![tactic(auto, using(crate::proofs::Valuing::valuing))]

ghost use Rattle.std.specs.Prelude.{◌≡◌, ◌++◌, false, OnOk};
ghost use Rattle.el_subst.specs.References.{references_of};
ghost use Rattle.el_lint.specs.KnownTold.{known_told};
ghost use Rattle.el_lint.specs.Values.{takes_value, valued_lints, is_shell, coded_lints, coded_from};

use crate::known::KnownNames;
use crate::lint::Lint;
use el_subst::next_reference;
use el_words::{Bytes, NoMemory, Words};
use std::alloc::Global;

// The option of a shell behind which its text stands.
const CODE: &[u8] = b"-c";

/// Puts the first word of a command behind, where a value is put in it.
pub(crate) fn put_valued(
    alloc: Global,
    known: &KnownNames,
    word: &[u8],
    lints: &mut Vec<Lint>,
) -> Result<(), NoMemory>
    ensures { OnOk result (lints.new.items ≡ lints.old.items ++ valued_lints (known_told known.now) word.now) }
{
    if takes_value(known, word) {
        lints.push(Lint::Valued {
            word: Bytes::from_slice(alloc, word)?,
        })?;
    }
    Ok(())
}

/// Puts those of a command's words behind that are the text of a shell, where a value is put in it.
pub(crate) fn put_coded(
    alloc: Global,
    known: &KnownNames,
    texts: &Words,
    lints: &mut Vec<Lint>,
) -> Result<(), NoMemory>
    ensures { OnOk result (lints.new.items ≡ lints.old.items ++ coded_from (known_told known.now) false false texts.now) }
{
    let mut is_behind_shell = false;
    let mut is_code = false;
    for text in texts {
        if is_code {
            put_coded_at(alloc, known, text, lints)?;
            is_behind_shell = false;
            is_code = false;
        } else {
            is_code = is_behind_shell && text == CODE;
            is_behind_shell = is_shell(text);
        }
    }
    Ok(())
}

fn put_coded_at(
    alloc: Global,
    known: &KnownNames,
    word: &[u8],
    lints: &mut Vec<Lint>,
) -> Result<(), NoMemory>
    ensures { OnOk result (lints.new.items ≡ lints.old.items ++ coded_lints (known_told known.now) word.now) }
{
    if takes_value(known, word) {
        lints.push(Lint::Coded {
            word: Bytes::from_slice(alloc, word)?,
        })?;
    }
    Ok(())
}

// The name of a shell.
#[tactic(auto, unfolding(crate::specs::Values::is_shell))]
fn is_shell(word: &[u8]) -> bool
    ensures { result ≡ is_shell word.now }
{
    word == b"sh".as_slice()
        || word == b"/bin/sh".as_slice()
        || word == b"bash".as_slice()
        || word == b"dash".as_slice()
}

// Whether a value is put in a word.
fn takes_value(known: &KnownNames, word: &[u8]) -> bool
    ensures { result ≡ takes_value (known_told known.now) (references_of word.now) }
{
    let mut rest = word;
    while let Some(found) = next_reference(rest) {
        if found.slashes % 2 == 0 && known.has(found.key) {
            return true;
        }
        rest = found.rest;
    }
    false
}
