//! Tests under `-n`, where a script goes on if their command isn't found.
ghost use Rattle.std.specs.Prelude.{◌≡◌, ◌++◌, OnOk};
ghost use Rattle.el_lint.specs.Negated.{is_always_found, negated_lints};

use crate::lint::Lint;
use el_words::{Bytes, NoMemory};
use std::alloc::Global;

/// Puts the first word of a command behind, where it is such a test, and may not be found.
pub(crate) fn put_negated(
    alloc: Global,
    is_test: bool,
    word: &[u8],
    lints: &mut Vec<Lint>,
) -> Result<(), NoMemory>
    ensures { OnOk result (lints.new.items ≡ lints.old.items ++ negated_lints is_test word.now) }
{
    if is_test && !word.contains(&b'$') && !is_always_found(word) {
        lints.push(Lint::Negated {
            word: Bytes::from_slice(alloc, word)?,
        })?;
    }
    Ok(())
}

// A command that is always found.
#[tactic(auto, unfolding(crate::specs::Negated::is_always_found))]
fn is_always_found(word: &[u8]) -> bool
    ensures { result ≡ is_always_found word.now }
{
    word == b"test".as_slice()
        || word == b"[".as_slice()
        || word == b"eltest".as_slice()
        || word == b"true".as_slice()
        || word == b"false".as_slice()
}
