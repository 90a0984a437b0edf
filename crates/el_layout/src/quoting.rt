//! How a word is written so that it is read as itself.
ghost use Rattle.std.specs.Prelude.{◌≡◌, ◌<◌, ◌++◌, OnOk};
ghost use Rattle.std.specs.List.{list_all};
ghost use Rattle.el_layout.specs.Layout.{is_bare_byte, is_bare, hexadecimal_digit, escaped, quoted, word_layout};

use el_words::{Bytes, NoMemory};

/// Puts a word last: as it is where it is read as itself, and in quotes otherwise.
pub(crate) fn print_word(out: &mut Bytes, word: &[u8]) -> Result<(), NoMemory>
    ensures { OnOk result (out.new ≡ out.old ++ word_layout word.now) }
{
    if is_bare(word) {
        out.append(word)
    } else {
        print_quoted(out, word)
    }
}

fn is_bare(word: &[u8]) -> bool
    ensures { result ≡ is_bare word.now }
{
    !word.is_empty() && !matches!(word, b"{" | b"}") && are_bare(word)
}

fn are_bare(bytes: &[u8]) -> bool
    ensures { result ≡ list_all is_bare_byte bytes.now }
{
    bytes.iter().all(|byte| is_bare_byte(*byte))
}

fn is_bare_byte(byte: u8) -> bool
    ensures { result ≡ is_bare_byte byte }
{
    byte.is_ascii_alphanumeric() || b"_-./=:,+@%!?*${}".contains(&byte)
}

fn print_quoted(out: &mut Bytes, word: &[u8]) -> Result<(), NoMemory>
    ensures { OnOk result (out.new ≡ out.old ++ quoted word.now) }
{
    out.push(b'"')?;
    for byte in word {
        print_escaped(out, *byte)?;
    }
    out.push(b'"')
}

fn print_escaped(out: &mut Bytes, byte: u8) -> Result<(), NoMemory>
    ensures { OnOk result (out.new ≡ out.old ++ escaped byte) }
{
    match byte {
        b'"' | b'\\' => out.append(&[b'\\', byte]),
        b'\n' => out.append(b"\\n"),
        b'\t' => out.append(b"\\t"),
        b'\r' => out.append(b"\\r"),
        _ if byte.is_ascii_control() => {
            let (high, low) = (hexadecimal_digit(byte / 16), hexadecimal_digit(byte % 16));
            out.append(&[b'\\', b'0', b'x', high, low])
        }
        _ => out.push(byte),
    }
}

fn hexadecimal_digit(number: u8) -> u8
    requires { number < 16 }
    ensures { result ≡ hexadecimal_digit number }
{
    if number < 10 {
        b'0' + number
    } else {
        b'a' + (number - 10)
    }
}
