//! What one substitution marks.

ghost use Rattle.el_script.specs.Vocabulary.{list_any, bytes_eq, Marked, both_members, marks_many, has_many, is_positional, is_plain_number, reads_positionals};
ghost use Rattle.std.specs.Prelude.{◌≡◌, ◌&&◌, [], Some, OnOk};
ghost use Rattle.el_tree.specs.Marks.{is_many, is_all};
ghost use Rattle.el_reader.specs.Known.{marks_nothing, mark_of, first_mark, with_key, marks_names, marks_directives};

use crate::seen::LettersSeen;
use el_tree::Mark;
use el_words::{NoMemory, Prog, Word, are_digits};
use std::alloc::Global;
use std::marker::Model;

/// The keys of one substitution, and whether it has those of the positionals. A contract sees the definitions' member.
#[derive(Drop)]
pub(crate) struct Member {
    pub(crate) marked: Vec<(Word, Mark)>,
    pub(crate) positional: bool,
}

impl Model for Member {
    ghost use Rattle.el_tree.specs.Marks.{Member};

    ghost Value = { Member };

    ghost view = { λ m. record { marked = m.marked.items; positional = m.positional } };
}

impl Member {
    /// No key of its own, and those of the positionals or not.
    pub(crate) fn new(alloc: Global, positional: bool) -> Member
        ensures { result ≡ record { marked = []; positional = positional } }
    {
        Member {
            marked: Vec::new(alloc),
            positional,
        }
    }

    /// Whether there is no key.
    pub(crate) fn is_empty(&self) -> bool
        ensures { result ≡ marks_nothing self.now }
    {
        self.marked.is_empty() && !self.positional
    }

    /// Adds a key.
    pub(crate) fn mark(&mut self, key: Word, mark: Mark) -> Result<(), NoMemory>
        ensures { OnOk result (self.new ≡ with_key self.old key (Some mark)) }
    {
        self.marked.push((key, mark))?;
        Ok(())
    }

    /// Adds what another marks.
    pub(crate) fn add(&mut self, mut other: Member) -> Result<(), NoMemory>
        ensures ok { OnOk result (self.new ≡ both_members self.old other) }
    {
        self.marked.append(&mut other.marked)?;
        self.positional |= other.positional;
        Ok(())
    }

    /// Whether `key` may have any number of words.
    pub(crate) fn marks_many(&self, key: &[u8]) -> bool
        ensures { result ≡ marks_many self.now key.now }
    {
        marks_key_many(&self.marked, key) || (self.positional && is_all(key))
    }

    /// Whether some key may have any number of words.
    pub(crate) fn has_many(&self) -> bool
        ensures { result ≡ has_many self.now }
    {
        any_many(&self.marked) || self.positional
    }
}

/// How a program marks the word at its first place, by the letters that were read.
pub(crate) fn first_mark(program: Prog, seen: LettersSeen) -> Option<Mark>
    ensures { result ≡ first_mark program seen }
{
    match program {
        Prog::Define => Some(mark_of(seen.split)),
        Prog::Importas | Prog::Import => Some(mark_of(seen.split || !seen.default)),
        Prog::Forx | Prog::Forstdin | Prog::Forbacktickx | Prog::Backtick if seen.puts => {
            Some(Mark::One)
        }
        _ => None,
    }
}

fn mark_of(many: bool) -> Mark
    ensures { result ≡ mark_of many }
{
    if many { Mark::Many } else { Mark::One }
}

/// Whether a program marks the names of its block.
pub(crate) fn marks_names(program: Prog) -> bool
    ensures { result ≡ marks_names program }
{
    program == Prog::Multidefine
}

/// Whether a program marks what the directives of its block do.
pub(crate) fn marks_directives(program: Prog) -> bool
    ensures { result ≡ marks_directives program }
{
    program == Prog::Multisubstitute
}

/// Whether a program marks the keys of the positionals.
pub(crate) fn reads_positionals(program: Prog) -> bool
    ensures { result ≡ reads_positionals program }
{
    program == Prog::Elgetpositionals
}

fn marks_key_many(marked: &[(Word, Mark)], key: &[u8]) -> bool
    ensures { result ≡ list_any (λ (one : Marked). bytes_eq one.0 key.now && is_many one.1) marked.now }
{
    marked
        .iter()
        .any(|one| one.0.as_bytes() == key && is_many(one.1))
}

fn any_many(marked: &[(Word, Mark)]) -> bool
    ensures { result ≡ list_any (λ (one : Marked). is_many one.1) marked.now }
{
    marked.iter().any(|one| is_many(one.1))
}

fn is_many(mark: Mark) -> bool
    ensures { result ≡ is_many mark }
{
    mark == Mark::Many
}

/// Whether the positionals mark `key`.
pub(crate) fn is_positional(key: &[u8]) -> bool
    ensures { result ≡ is_positional key.now }
{
    is_all(key) || matches!(key, b"#") || is_plain_number(key)
}

fn is_all(key: &[u8]) -> bool
    ensures { result ≡ is_all key.now }
{
    matches!(key, b"@")
}

// Whether `key` is a decimal number without leading zeros.
fn is_plain_number(key: &[u8]) -> bool
    ensures { result ≡ is_plain_number key.now }
{
    match key {
        [] => false,
        [digit] => digit.is_ascii_digit(),
        [first, ..] => *first != b'0' && are_digits(key),
    }
}
