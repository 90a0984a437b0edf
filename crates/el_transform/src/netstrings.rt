//! Reading netstrings.
ghost use Rattle.std.specs.Prelude.{◌≡◌, Some, IfOk, IfErr, length, option_map};
ghost use Rattle.std.specs.List.{take_while};
ghost use Rattle.std.specs.Char.{is_ascii_digit};
ghost use Rattle.el_words.specs.Word.{HasNul};
ghost use Rattle.el_transform.specs.Netstrings.{netstrings_text, FailsAt};
ghost use Rattle.el_transform.specs.Transform.{IsFaultAt};
ghost use Rattle.el_transform.specs.Computed.{length_of, cut_word as cut_word_of, netstring_of};

use crate::TransformFault;
use el_words::{Words, parse_u64};
use std::alloc::Global;

/// A netstring that some bytes begin with: a length in decimal without leading zeros, a colon, so many
/// bytes and a comma (https://cr.yp.to/proto/netstrings.txt).
#[derive(Clone, Copy)]
pub struct Netstring<'a> {
    /// Its word: the bytes between colon and comma.
    pub word: &'a [u8],
    /// The bytes behind its comma.
    pub rest: &'a [u8],
}

/// The words whose netstrings are the bytes, one directly behind the other; `BadNetstring` with the place
/// up to which netstrings fill the bytes and at which none begins. The bytes hold no NUL, as words don't.
pub fn read_netstrings(alloc: Global, bytes: &[u8]) -> Result<Words, TransformFault>
    requires { HasNul bytes.now → ⊥ }
    ensures ok { IfOk result (λ words. netstrings_text words ≡ bytes.now) }
    ensures bad { IfErr result (IsFaultAt (FailsAt bytes.now)) }
{
    let mut words = Words::new(alloc);
    let mut rest = bytes;
    while !rest.is_empty() {
        let Some(netstring) = first_netstring(rest) else {
            return Err(TransformFault::BadNetstring {
                at: bytes.len() - rest.len(),
            });
        };
        words.push(netstring.word)?;
        rest = netstring.rest;
    }
    Ok(words)
}

/// The netstring that the bytes begin with, or None exactly where they begin with none. It takes no memory.
pub fn first_netstring(bytes: &[u8]) -> Option<Netstring<'_>>
    ensures { option_map (λ n. (n.word.now, n.rest.now)) result ≡ netstring_of bytes.now }
{
    let (digits, text) = bytes.split_at(count_digits(bytes));
    cut_word(parse_length(digits)?, text)
}

/// How many ASCII digits the bytes begin with, which write a netstring's length.
pub fn count_digits(bytes: &[u8]) -> usize
    ensures { result ≡ length (take_while is_ascii_digit bytes.now) }
{
    bytes
        .iter()
        .take_while(|byte| byte.is_ascii_digit())
        .count()
}

/// A colon, a word of this length and a comma.
fn cut_word(length: usize, bytes: &[u8]) -> Option<Netstring<'_>>
    ensures { option_map (λ n. (n.word.now, n.rest.now)) result ≡ cut_word_of (Some length) bytes.now }
{
    let [b':', text @ ..] = bytes else {
        return None;
    };
    let (word, [b',', rest @ ..]) = text.split_at_checked(length)? else {
        return None;
    };
    Some(Netstring { word, rest })
}

/// The number that a netstring's digits write; None where there are none, where a zero leads others, where a
/// byte is no ASCII digit, and where the number has more than 64 bits.
pub fn parse_length(digits: &[u8]) -> Option<usize>
    ensures { result ≡ length_of digits.now }
{
    match digits {
        [b'0', _, ..] => None,
        _ => Some(parse_u64(digits)? as usize),
    }
}
