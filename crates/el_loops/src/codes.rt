//! The codes of turns, and what the letters of loops say of them.
ghost use Rattle.std.specs.Prelude.{◌≡◌, ◌∷◌, []};
ghost use Rattle.el_front.specs.Reads.{value_of, read_of};
ghost use Rattle.el_loops.specs.Codes.{writes, lists, is_listed};
ghost use Rattle.el_loops.specs.Turns.{is_ending, or_first};

use el_room::{Front, parse_u64};

/// Whether a code is among those that are given to a letter in force.
pub(crate) fn is_listed(front: &Front, letter: u8, code: u8) -> bool
    ensures { result ≡ is_listed (value_of (letter ∷ []) (read_of front.now)) code }
{
    match front.value(letter) {
        Some(text) => lists(text, code),
        None => false,
    }
}

/// Whether a turn with this code ends its loop.
pub(crate) fn is_ending(front: &Front, code: u8) -> bool
    ensures { result ≡ is_ending (read_of front.now) code }
{
    match (front.value(b'x'), front.value(b'o')) {
        (Some(text), _) => lists(text, code),
        (None, Some(text)) => !lists(text, code),
        (None, None) => false,
    }
}

/// The code, where it ends the loop, unless an earlier one does.
pub(crate) fn or_first(front: &Front, found: Option<u8>, code: u8) -> Option<u8>
    ensures { result ≡ or_first (read_of front.now) found code }
{
    match found {
        Some(first) => Some(first),
        None if is_ending(front, code) => Some(code),
        None => None,
    }
}

// Whether one of these numbers, which commas part, is the code.
fn lists(text: &[u8], code: u8) -> bool
    ensures { result ≡ lists text.now code }
{
    text.split(|byte| *byte == b',')
        .any(|number| writes(number, code))
}

fn writes(text: &[u8], code: u8) -> bool
    ensures { result ≡ writes text.now code }
{
    match parse_u64(text) {
        Some(number) => number == u64::from(code),
        None => false,
    }
}
