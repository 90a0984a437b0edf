//! References in whose place nothing puts a value.
ghost use Rattle.std.specs.Prelude.{◌≡◌, ◌++◌, ◌∷◌, [], false, OnOk};
ghost use Rattle.el_subst.specs.References.{references_of};
ghost use Rattle.el_lint.specs.Known.{is_among};
ghost use Rattle.el_lint.specs.KnownTold.{known_told};
ghost use Rattle.el_lint.specs.Lints.{is_put_in, unset_at, unset_in, unset_from};

use crate::known::{KnownNames, is_positional};
use crate::lint::Lint;
use el_subst::{Referred, next_reference};
use el_words::{Bytes, NoMemory, Words};
use std::alloc::Global;

// The option behind which the text of another language stands.
const CODE: &[u8] = b"-c";

/// Puts those among `texts` behind: a program in front has the names that are known, and a command those around, too.
pub(crate) fn put_unset(
    alloc: Global,
    known: &KnownNames,
    around: &Words,
    texts: &Words,
    lints: &mut Vec<Lint>,
) -> Result<(), NoMemory>
    ensures { OnOk result (lints.new.items ≡ lints.old.items ++ unset_from (known_told known.now) around.now false texts.now) }
{
    let mut is_code = false;
    for text in texts {
        if is_code {
            is_code = false;
        } else {
            put_unset_in(alloc, known, around, text, lints)?;
            is_code = text == CODE;
        }
    }
    Ok(())
}

fn put_unset_in(
    alloc: Global,
    known: &KnownNames,
    around: &Words,
    text: &[u8],
    lints: &mut Vec<Lint>,
) -> Result<(), NoMemory>
    ensures { OnOk result (lints.new.items ≡ lints.old.items ++ unset_in (known_told known.now) around.now (references_of text.now)) }
{
    let mut rest = text;
    while let Some(found) = next_reference(rest) {
        put_unset_at(alloc, known, around, found, lints)?;
        rest = found.rest;
    }
    Ok(())
}

fn put_unset_at(
    alloc: Global,
    known: &KnownNames,
    around: &Words,
    found: Referred<'_>,
    lints: &mut Vec<Lint>,
) -> Result<(), NoMemory>
    ensures { OnOk result (lints.new.items ≡ lints.old.items ++ unset_at (known_told known.now) around.now (found.entry.slashes, found.entry.key.now)) }
{
    if found.slashes % 2 == 0 && !is_put_in(known, around, found.key) {
        lints.push(Lint::Unset {
            key: Bytes::from_slice(alloc, found.key)?,
        })?;
    }
    Ok(())
}

fn is_put_in(known: &KnownNames, around: &Words, key: &[u8]) -> bool
    ensures { result ≡ is_put_in (known_told known.now) around.now key.now }
{
    known.has(key)
        || holds(around, key)
        || (is_positional(key) && holds(around, b"elgetpositionals"))
}

// Whether `word` is one of these.
fn holds(words: &Words, word: &[u8]) -> bool
    ensures { result ≡ is_among words.now word.now }
{
    for other in words {
        if other == word {
            return true;
        }
    }
    false
}
