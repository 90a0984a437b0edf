//! Descriptors that no program makes in the process that needs them.
ghost use Rattle.std.specs.Prelude.{◌≡◌, ◌++◌, IfOk, OnOk};
ghost use Rattle.std.specs.Option.{option_copied};
ghost use Rattle.el_redir.specs.Numbers.{number_or};
ghost use Rattle.el_lint.specs.Lints.{place_texts};
ghost use Rattle.el_lint.specs.Inherited.{with_made, with_word, made_behind, is_inherited, inherited_word, inherited_lints};

use crate::lint::Lint;
use crate::texts::place_texts;
use el_proc::NUMBERS;
use el_tree::Places;
use el_words::{Bytes, NoMemory, Prog, Words, parse_u64};
use std::alloc::Global;

// The first descriptor that a process doesn't get, and the number behind the greatest.
const FIRST: u64 = 3;

const END: u64 = NUMBERS as u64;

/// None of the descriptors is made.
pub(crate) const NONE_MADE: [bool; NUMBERS] = [false; NUMBERS];

/// The descriptors that are made behind a program, where these are made in front of it.
pub(crate) fn made_behind(
    alloc: Global,
    made: [bool; NUMBERS],
    program: Prog,
    places: &Places,
) -> Result<[bool; NUMBERS], NoMemory>
    ensures { IfOk result (λ behind. behind ≡ made_behind made program (place_texts places.now)) }
{
    match program {
        Prog::Redirfd | Prog::Fdmove | Prog::Heredoc => {
            let texts = place_texts(alloc, places)?;
            Ok(with_word(made, texts.get(0)))
        }
        Prog::Piperw => {
            let texts = place_texts(alloc, places)?;
            Ok(with_word(with_word(made, texts.get(0)), texts.get(1)))
        }
        Prog::Ifte | Prog::Loopwhilex | Prog::Forx | Prog::Forstdin | Prog::Forbacktickx => {
            Ok(NONE_MADE)
        }
        _ => Ok(made),
    }
}

// Those that are made where a word names one more.
fn with_word(made: [bool; NUMBERS], text: Option<&[u8]>) -> [bool; NUMBERS]
    ensures { result ≡ with_word made (option_copied text.entry) }
{
    match text {
        Some(text) => with_made(made, text),
        None => made,
    }
}

fn with_made(made: [bool; NUMBERS], text: &[u8]) -> [bool; NUMBERS]
    ensures { result ≡ with_made made text.now }
{
    if text.contains(&b'$') {
        return [true; NUMBERS];
    }
    let number = number_or_end(text);
    let mut more = made;
    if number < END {
        more[number as usize] = true;
    }
    more
}

/// Puts those single words of a program behind that name descriptors which it needs and which aren't made.
pub(crate) fn put_inherited(
    alloc: Global,
    made: &[bool; NUMBERS],
    program: Prog,
    texts: &Words,
    lints: &mut Vec<Lint>,
) -> Result<(), NoMemory>
    ensures { OnOk result (lints.new.items ≡ lints.old.items ++ inherited_lints made.now program texts.now) }
{
    match program {
        Prog::Fdmove => put_word(alloc, made, program, texts.get(1), lints),
        Prog::Fdswap => {
            put_word(alloc, made, program, texts.get(0), lints)?;
            put_word(alloc, made, program, texts.get(1), lints)
        }
        _ => Ok(()),
    }
}

fn put_word(
    alloc: Global,
    made: &[bool; NUMBERS],
    program: Prog,
    text: Option<&[u8]>,
    lints: &mut Vec<Lint>,
) -> Result<(), NoMemory>
    ensures { OnOk result (lints.new.items ≡ lints.old.items ++ inherited_word made.now program (option_copied text.entry)) }
{
    match text {
        Some(text) if is_inherited(made, text) => {
            lints.push(Lint::Inherited {
                program,
                word: Bytes::from_slice(alloc, text)?,
            })?;
            Ok(())
        }
        _ => Ok(()),
    }
}

fn is_inherited(made: &[bool; NUMBERS], text: &[u8]) -> bool
    ensures { result ≡ is_inherited made.now text.now }
{
    let number = number_or_end(text);
    !text.contains(&b'$') && number < END && FIRST <= number && !made[number as usize]
}

// The number that a word writes, or where it writes none that behind the greatest descriptor.
fn number_or_end(word: &[u8]) -> u64
    ensures { result ≡ number_or 64 word.now }
{
    parse_u64(word).unwrap_or(END)
}
