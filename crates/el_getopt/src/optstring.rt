//! The letters that an optstring names.
ghost use Rattle.std.specs.Prelude.{◌≡◌, true, IsSome};
ghost use Rattle.std.specs.Char.{is_ascii_alphanumeric};
ghost use Rattle.el_options.specs.Reading.{takes};
ghost use Rattle.el_getopt.specs.Optstring.{begins_with_colon, behind_colon, is_new_letter, is_optstring, letters_in};

const COLON: u8 = b':';

/// Whether the text is an optstring: ASCII letters and digits, each once, each with or without a colon behind it.
pub(crate) fn is_optstring(text: &[u8]) -> bool
    ensures { result ≡ is_optstring text.now }
{
    let mut left = text;
    while let [letter, behind @ ..] = left {
        if !is_new_letter(*letter, behind) {
            return false;
        }
        left = behind_colon(behind);
    }
    true
}

// A letter or a digit, which isn't among the bytes behind it.
fn is_new_letter(letter: u8, behind: &[u8]) -> bool
    ensures { result ≡ is_new_letter letter behind.now }
{
    letter.is_ascii_alphanumeric() && !behind.contains(&letter)
}

// What stands behind a colon, where one stands first.
fn behind_colon(bytes: &[u8]) -> &[u8]
    ensures { result.now ≡ behind_colon bytes.now }
{
    match bytes {
        [COLON, behind @ ..] => behind,
        _ => bytes,
    }
}

/// Whether a letter of an optstring takes a value, or None where it isn't among them.
pub(crate) fn takes_value(optstring: &[u8], letter: u8) -> Option<bool>
    ensures { result ≡ takes (letters_in optstring.now) letter }
{
    if letter == COLON {
        return None;
    }
    let mut left = optstring;
    while let [first, behind @ ..] = left {
        if *first == letter {
            return Some(begins_with_colon(behind));
        }
        left = behind;
    }
    None
}

fn begins_with_colon(bytes: &[u8]) -> bool
    ensures { result ≡ begins_with_colon bytes.now }
{
    matches!(bytes, [COLON, ..])
}
