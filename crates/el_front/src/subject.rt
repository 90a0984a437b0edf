//! What a refusal or a warning of a front is about, for the person who reads it.

use crate::blocks::unspell;
use crate::places::{BlockPlace, FrontPlaces};
use crate::placing::gather_plain;
use el_blocks::block_len_at;
use el_options::{Rule, Strictness, is_bad_number, rule_on, rule_on_positionals, takes_value};
use el_proc::Trouble;
use el_words::{Prog, Words, name_of};
use el_world::Subject;
use std::alloc::Global;

/// What the trouble is about that came after so many words were read, or None if the message says it.
pub(crate) fn subject_of<'a>(
    alloc: Global,
    program: Prog,
    words: &'a Words,
    read: usize,
    trouble: Trouble,
) -> Option<Subject<'a>> {
    match trouble {
        Trouble::Unterminated => Some(unterminated(words.get(read)?)),
        Trouble::BadNumber => bad_number(Reader::Program(program), words),
        Trouble::BadDirective => Some(Subject::of(
            b"directive",
            bad_directive(alloc, words)?,
        ).with_note(b"define, importas, multidefine or elgetpositionals is wanted")),
        Trouble::Unquoted => Some(Subject::of(b"word", unquoted(words, read)?)),
        _ => None,
    }
}

/// What the trouble of a call of execlineb or elcheck is about, or None if the message says it.
pub fn subject_of_call(words: &Words, trouble: Trouble) -> Option<Subject<'_>> {
    match trouble {
        Trouble::BadNumber => bad_number(Reader::Call, words),
        _ => None,
    }
}

/// What the warning with this number is about: a word in one of these blocks that has no leading space.
pub(crate) fn warned_of<'a>(
    words: &'a Words,
    places: &FrontPlaces,
    number: usize,
) -> Option<Subject<'a>> {
    let mut left = number;
    for block in &places.blocks {
        match nth_unquoted(words, *block, left) {
            Ok(word) => return Some(Subject::of(b"word", word)),
            Err(fewer) => left = fewer,
        }
    }
    None
}

// The word with this number among those of the block that have no leading space; or, if there are fewer, what is left of
// the number after them.
fn nth_unquoted(words: &Words, block: BlockPlace, number: usize) -> Result<&[u8], usize> {
    let mut left = number;
    for index in block.from..block.from.saturating_add(block.len) {
        let word = words.get(index).unwrap_or(b" ");
        if !word.starts_with(b" ") {
            if left == 0 {
                return Ok(word);
            }
            left -= 1;
        }
    }
    Err(left)
}

// The word where a block should begin, or with which one begins that no empty word ends.
fn unterminated(word: &[u8]) -> Subject<'_> {
    match word.strip_prefix(b" ") {
        Some(word) => Subject::of(b"no empty word ends the block that begins with", word),
        None => Subject::of(b"a { block } is wanted in place of", word),
    }
}

// Whose letters are read.
#[derive(Clone, Copy)]
enum Reader {
    // A program of a chain.
    Program(Prog),
    // A call of execlineb or elcheck.
    Call,
}

impl Reader {
    fn takes_value(self, letter: u8) -> bool {
        match self {
            Reader::Program(program) => takes_value(program, letter) == Some(true),
            Reader::Call => matches!(letter, b'S' | b's' | b'c'),
        }
    }

    fn rule_on(self, letter: u8) -> Rule {
        match self {
            Reader::Program(program) => rule_on(program, letter),
            Reader::Call => rule_on_positionals(letter),
        }
    }
}

// The last value of a letter that should be a number and isn't: of letters that replace each other the last counts.
fn bad_number(reader: Reader, words: &Words) -> Option<Subject<'_>> {
    let mut found = None;
    let mut is_value = false;
    for index in 1..words.len() {
        if is_value {
            is_value = false;
            continue;
        }
        let Some(letters) = letters_of(words.at(index)) else {
            return found;
        };
        if let Some(value) = first_value(reader, letters) {
            is_value = value.text.is_empty();
            found = value.bad(words.get(index + 1)).or(found);
        }
    }
    found
}

// The letters of an option word, or None if it is none.
fn letters_of(word: &[u8]) -> Option<&[u8]> {
    let letters = word.strip_prefix(b"-")?;
    (!letters.is_empty()).then_some(letters)
}

// The rule on a letter's value, and what stands after the letter in its word.
#[derive(Clone, Copy)]
struct Value<'a> {
    rule: Rule,
    text: &'a [u8],
}

// The value of the first of these letters that takes one.
fn first_value(reader: Reader, letters: &[u8]) -> Option<Value<'_>> {
    for (place, letter) in letters.iter().enumerate() {
        if reader.takes_value(*letter) {
            return Some(Value {
                rule: reader.rule_on(*letter),
                text: letters.get(place + 1..).unwrap_or(b""),
            });
        }
    }
    None
}

impl<'a> Value<'a> {
    // The letter's value, which is the next word if nothing stands after the letter, where it is no number but should be.
    fn bad(self, next: Option<&'a [u8]>) -> Option<Subject<'a>> {
        let text = if self.text.is_empty() {
            next?
        } else {
            self.text
        };
        let subject = Subject::of(b"number", text).with_note(wanted(self.rule));
        is_bad_number(self.rule, text).then_some(subject)
    }
}

// What a rule on numbers wants.
fn wanted(rule: Rule) -> &'static [u8] {
    match rule {
        Rule::Number { most: 65535 } => b"a number up to 65535 is wanted",
        Rule::Number { .. } => b"a number up to 255 is wanted",
        Rule::Numbers { .. } => b"numbers up to 255 are wanted, with commas between them",
        Rule::AnyText | Rule::NonEmpty => b"",
    }
}

// The first word in the block of directives that should name a directive and doesn't.
fn bad_directive(alloc: Global, words: &Words) -> Option<&[u8]> {
    if words.is_empty() {
        return None;
    }
    let len = block_len_at(words, 1)?;
    let mut left = unspell(alloc, words, BlockPlace { from: 1, len }).ok()?;
    for _ in 0..len {
        let Some(program) = directive(left.first()?) else {
            let word = words.get(len.saturating_sub(left.len()).saturating_add(1))?;
            return Some(word.strip_prefix(b" ").unwrap_or(word));
        };
        let gathered = gather_plain(alloc, Strictness::Lenient, program, &left);
        left.drop_front(gathered.places.rest);
    }
    None
}

fn directive(word: &[u8]) -> Option<Prog> {
    let program = name_of(word)?;
    matches!(
        program,
        Prog::Define | Prog::Importas | Prog::Multidefine | Prog::Elgetpositionals
    )
    .then_some(program)
}

// The first word from this place on without a leading space.
fn unquoted(words: &Words, from: usize) -> Option<&[u8]> {
    for index in from..words.len() {
        let word = words.at(index);
        if !word.starts_with(b" ") {
            return Some(word);
        }
    }
    None
}

/// What the message is about of a name that no variable can have.
pub fn bad_name(name: &[u8]) -> Subject<'_> {
    Subject::of(b"name", name).with_note(b"a variable's name isn't empty and has no =")
}

/// What the message is about of a name that no reference can have.
pub fn bad_key(name: &[u8]) -> Subject<'_> {
    Subject::of(b"name", name).with_note(b"a reference's name isn't empty and has no $ and no }")
}

/// What the message is about where nothing is left at standard input.
pub fn closed_input() -> Subject<'static> {
    Subject::of(b"descriptor", b"0").with_note(b"a program before this one closed or moved it")
}

/// What the message is about where a value holds a NUL.
pub fn nul_in(name: &[u8]) -> Subject<'_> {
    Subject::of(b"variable", name).with_note(b"no value can hold a NUL")
}
