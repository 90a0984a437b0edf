//! The next reference of a word, whatever the keys are.
ghost use Rattle.std.specs.Prelude.{◌≡◌, ◌<◌, [], ◌∷◌, length, IfSome, IfNone};
ghost use Rattle.el_subst.specs.References.{references_of};

use crate::paired::slashes_before;
use crate::reference::reference_after;
use memchr::memchr;

/// A reference in a word.
#[derive(Clone, Copy)]
pub struct Referred<'a> {
    /// How many backslashes stand directly before its `$`.
    pub slashes: usize,
    /// What is looked up.
    pub key: &'a [u8],
    /// What follows it.
    pub rest: &'a [u8],
}

/// The first reference of a word, whatever the keys are, or None exactly where it has none. What follows it is
/// read on its own.
pub fn next_reference(word: &[u8]) -> Option<Referred<'_>>
    ensures none { IfNone result (references_of word.now ≡ []) }
    ensures some { IfSome result (λ found. references_of word.now ≡ (found.slashes, found.key.now) ∷ references_of found.rest.now) }
    ensures shorter { IfSome result (λ found. length found.rest.now < length word.now) }
{
    let mut rest = word;
    while let Some(dollar) = memchr(b'$', rest) {
        let after = &rest[dollar + 1..];
        if let Some(reference) = reference_after(after) {
            return Some(Referred {
                slashes: slashes_before(&rest[..dollar]),
                key: reference.key,
                rest: &after[reference.length..],
            });
        }
        rest = after;
    }
    None
}
