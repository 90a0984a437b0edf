//! Laws of the definitions: functions that do nothing, whose contracts are the laws.

ghost use Rattle.el_subst.specs.Laws.{PartsJoin, SpellingsKeepDepth, ScopesKeepDepth, PlainWordsStay, EmptyChangesNothing};

/// The parts of a word, joined, are the word.
pub fn parts_join()
    ensures { PartsJoin }
{}

/// The values of a spelling are the spelling of the values, at the same depths.
pub fn spellings_keep_depth()
    ensures { SpellingsKeepDepth }
{}

/// The same in a scope, where substitutions are applied one after the other.
pub fn scopes_keep_depth()
    ensures { ScopesKeepDepth }
{}

/// A word without `$` is its own value.
pub fn plain_words_stay()
    ensures { PlainWordsStay }
{}

/// The substitution without pairs changes no word.
pub fn empty_changes_nothing()
    ensures { EmptyChangesNothing }
{}
