//! What comes next as an option word.
ghost use Rattle.el_script.specs.Vocabulary.{Opt, shape_of, text_in};
ghost use Rattle.std.specs.Prelude.{◌≡◌, List, Some};
ghost use Rattle.el_options.specs.Reading.{cluster_of, shown_behind_dash};
ghost use Rattle.el_reader.specs.Roles.{next_told, nothing_seen};
ghost use Rattle.el_reader.specs.Known.{shown_at, word_judged, letters_judged, value_judged};

use crate::faults::{is_literal, verdict};
use crate::next::Next;
use crate::role::Part;
use crate::seen::LettersSeen;
use el_options::{is_bad_number, reads_options, rule_on, takes_value};
use el_tree::{Fault, PlacedFault};
use el_words::Prog;

/// What an option word that comes next is to a program, or what is wrong with it. None is one where the options ended.
pub(crate) fn judge_option(
    program: Prog,
    ended: bool,
    next: Next<'_>,
) -> Option<Result<Part, PlacedFault>>
    ensures { result ≡ word_judged program (text_in (next_told next.entry)) (shown_at program ended (next_told next.entry)) }
{
    match next {
        Next::Text(text) if !ended && reads_options(program) => match text.split_first() {
            Some((first, letters)) if *first == b'-' => behind_dash(program, text, letters),
            _ => None,
        },
        _ => None,
    }
}

fn behind_dash(program: Prog, text: &[u8], letters: &[u8]) -> Option<Result<Part, PlacedFault>>
    ensures { (opts : List Opt) → (shape_of program).letters ≡ Some opts → result ≡ word_judged program text.now (shown_behind_dash opts letters.now) }
{
    if letters.is_empty() {
        return None;
    }
    if letters == b"-".as_slice() {
        let seen = LettersSeen::default();
        return Some(Ok(Part::Option { seen, ended: true }));
    }
    if !is_literal(text) {
        return Some(Err(PlacedFault::At(Fault::OptionNotLiteral)));
    }
    Some(judge_letters(program, letters))
}

fn judge_letters(program: Prog, letters: &[u8]) -> Result<Part, PlacedFault>
    ensures { (opts : List Opt) → (shape_of program).letters ≡ Some opts → result ≡ letters_judged program nothing_seen (cluster_of opts letters.now) }
{
    let mut seen = LettersSeen::default();
    let mut rest = letters;
    while let [letter, more @ ..] = rest {
        seen = seen.and(LettersSeen::letter(*letter));
        match takes_value(program, *letter) {
            None => return Err(PlacedFault::At(Fault::BadOption)),
            Some(true) => return judge_value(program, seen, *letter, more),
            Some(false) => {}
        }
        rest = more;
    }
    Ok(Part::Option { seen, ended: false })
}

// Letters of which the last one takes the rest of the word as its value, or the next word where it is empty.
fn judge_value(
    program: Prog,
    seen: LettersSeen,
    letter: u8,
    value: &[u8],
) -> Result<Part, PlacedFault>
    ensures { result ≡ value_judged program seen letter value.now }
{
    if value.is_empty() {
        return Ok(Part::Waiting { seen, letter });
    }
    let is_bad = is_bad_number(rule_on(program, letter), value);
    verdict(
        is_bad.then_some(PlacedFault::At(Fault::BadNumber)),
        Part::Option { seen, ended: false },
    )
}
