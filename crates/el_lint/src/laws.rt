//! Laws of the definitions: functions that do nothing, whose contracts are the laws.

ghost use Rattle.el_lint.specs.Laws.{RefusedWordsEnd};

/// A program with a word that is found to be refused ends its script with a message and with 100, wherever it is reached: in every scope
/// and every state.
pub fn refused_words_end()
    ensures { RefusedWordsEnd }
{}
