//! Laws on spellings and brace faults.
// Laws over the definitions: tokens have one spelling or one first brace fault, and a block ends at one place.

ghost use Rattle.el_blocks.specs.Laws.{SpellingIsComputed, FaultIsComputed, OneSpelling, OneFault, NeverBoth, OneEnd};

/// The spelling and the first brace fault are what is computed of the tokens, so that each list of tokens has one of them.
pub fn computed()
    ensures spelling { SpellingIsComputed }
    ensures fault { FaultIsComputed }
{}

/// Tokens have at most one spelling.
pub fn one_spelling()
    ensures { OneSpelling }
{}

/// Tokens have at most one first brace fault.
pub fn one_fault()
    ensures { OneFault }
{}

/// Tokens with a spelling have no brace fault.
pub fn never_both()
    ensures { NeverBoth }
{}

/// No block's spelling is a proper prefix of another's at the same depth.
pub fn one_end()
    ensures { OneEnd }
{}
