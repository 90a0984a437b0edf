//! Laws of what is known and made of a script: functions that do nothing, whose contracts are the laws.
#![tactic(auto, using(crate::proofs::LawsHold::laws))]

ghost use Rattle.el_reader.specs.Laws.{Judges, Knows, Makes, MakesTree};

/// What is known of a script says what its next token is, or what is wrong with it.
pub fn tokens_are_judged()
    ensures { Judges }
{}

/// What is known of a script goes on with each token that isn't wrong.
pub fn tokens_are_known()
    ensures { Knows }
{}

/// What is made of a script goes on with each token that isn't wrong, by what the token is.
pub fn tokens_are_put()
    ensures { Makes }
{}

/// In the end the tree is what is made.
pub fn tree_is_made()
    ensures { MakesTree }
{}
