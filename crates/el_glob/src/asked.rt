//! What elglob's words say.
ghost use Rattle.std.specs.Prelude.{◌≡◌, ◌<◌, ◌≤◌, [], length, drop, IfOk};
ghost use Rattle.el_glob.specs.Asked.{elglob_letters, asks_none_for_none, asked_with, asked_behind, asked};
ghost use Rattle.el_glob.specs.Patterns.{pattern_of};

use crate::fault::PatternFault;
use crate::pattern::Pattern;
use crate::refusal::Refusal;
use el_front::{read_call, trouble_of};
use el_options::{Opt, Table};
use el_proc::Trouble;
use el_subst::is_good_key;
use el_words::{NoMemory, Word, Words};
use std::alloc::Global;

/// The options of elglob.
pub const ELGLOB: Table<1> = Table {
    opts: [Opt {
        letter: b'0',
        takes: false,
    }],
};

/// What is asked for: the matches of a pattern in place of a variable.
#[derive(Drop)]
pub struct Asked {
    /// Whether no match gives no word, and not the pattern's own.
    pub none_for_none: bool,
    /// The variable, which a reference can have.
    pub key: Word,
    /// The pattern's own word.
    pub text: Word,
    pub pattern: Pattern,
    /// What is run next.
    pub rest: Words,
}

/// What the words say, of which the first is the name, or what they are refused for. In this order that is a
/// letter other than `0`, fewer than two words behind the options, a variable that no reference can have, and
/// a text that is no pattern.
#[tactic(auto, unfolding(crate::specs::Asked::elglob_letters, crate::specs::Asked::asked))]
pub(crate) fn read_asked(alloc: Global, words: &Words) -> Result<Result<Asked, Refusal>, NoMemory>
    requires { 0 < length words.now }
    ensures { IfOk result (λ read. read ≡ asked words.now) }
{
    match read_call(alloc, &[], &ELGLOB, words)? {
        Ok(letters) => asked_behind(alloc, letters.has(b'0'), letters.used, words),
        Err(fault) => Ok(Err(Refusal::Common(trouble_of(fault)))),
    }
}

// What the words behind so many say.
fn asked_behind(
    alloc: Global,
    none_for_none: bool,
    used: usize,
    words: &Words,
) -> Result<Result<Asked, Refusal>, NoMemory>
    requires { used ≤ length words.now }
    ensures { IfOk result (λ read. read ≡ asked_behind none_for_none (drop used words.now)) }
{
    let mut rest = words.copy()?;
    rest.drop_front(used);
    if rest.len() < 2 {
        return Ok(Err(Refusal::Common(Trouble::Missing)));
    }
    let key = Word::of(alloc, rest.at(0))?;
    if !is_good_key(key.as_bytes()) {
        return Ok(Err(Refusal::Common(Trouble::BadName)));
    }
    let text = Word::of(alloc, rest.at(1))?;
    rest.drop_front(2);
    asked_with(alloc, none_for_none, key, text, rest)
}

// The same, where the text may be a pattern.
fn asked_with(
    alloc: Global,
    none_for_none: bool,
    key: Word,
    text: Word,
    rest: Words,
) -> Result<Result<Asked, Refusal>, NoMemory>
    ensures { IfOk result (λ read. read ≡ asked_with none_for_none key text rest (pattern_of text)) }
{
    match Pattern::read(alloc, text.as_bytes()) {
        Ok(pattern) => Ok(Ok(Asked {
            none_for_none,
            key,
            text,
            pattern,
            rest,
        })),
        Err(PatternFault::Bad) => Ok(Err(Refusal::BadPattern)),
        Err(PatternFault::NoMemory) => Err(NoMemory),
    }
}
