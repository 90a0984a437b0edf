//! What elfamily's words ask for.
ghost use Rattle.std.specs.Prelude.{◌≡◌};
ghost use Rattle.el_words.specs.Number.{number_of};
ghost use Rattle.el_family.specs.Asked.{tree_option, budget_from, asked, numbered};

use el_words::{Words, parse_u64};

/// The greatest budget that may be asked for.
pub(crate) const MAX_BUDGET: u64 = 1_000_000;

/// How a family is told.
#[derive(Clone, Copy, PartialEq, Eq)]
pub(crate) enum Form {
    /// A line for each member, in order of number.
    Lines,
    /// A line for each member, below its parent's.
    Tree,
}

/// A process to be run with a budget, and how its family is told.
#[derive(Drop)]
pub(crate) struct Asked {
    pub(crate) form: Form,
    pub(crate) budget: u64,
    pub(crate) words: Words,
}

/// What the words behind the program's name ask for; None where they don't fit its use.
pub(crate) fn read_asked(mut words: Words) -> Option<Asked>
    ensures { result ≡ asked words }
{
    if words.first()? == tree_option() {
        words.drop_front(1);
        numbered(Form::Tree, words)
    } else {
        numbered(Form::Lines, words)
    }
}

// N, and the words of the process.
fn numbered(form: Form, mut words: Words) -> Option<Asked>
    ensures { result ≡ numbered form words }
{
    let budget = budget_from(words.first()?)?;
    words.drop_front(1);
    Some(Asked {
        form,
        budget,
        words,
    })
}

fn budget_from(word: &[u8]) -> Option<u64>
    ensures { result ≡ budget_from (number_of word.now) }
{
    parse_u64(word).filter(|budget| *budget <= MAX_BUDGET)
}

#[tactic(auto, unfolding(crate::specs::Asked::tree_option))]
fn tree_option() -> &'static [u8]
    ensures { result.now ≡ tree_option }
{
    b"--tree"
}
