//! Numbers in decimal, read and written.
ghost use Rattle.std.specs.Prelude.{◌≡◌, IfOk, Some};
ghost use Rattle.std.specs.Fmt.{decimal};
ghost use Rattle.el_words.specs.Number.{are_digits, number_of};

use crate::{NoMemory, Word};
use std::alloc::Global;

/// The number that `bytes` write in decimal. Leading zeros are allowed. None exactly where the text
/// is empty, holds a byte that is no digit, or is above the greatest u64.
pub fn parse_u64(bytes: &[u8]) -> Option<u64>
    ensures { result ≡ number_of bytes.now }
{
    if !are_digits(bytes) {
        return None;
    }
    str::from_utf8(bytes).ok()?.parse().ok()
}

/// Whether each byte is a digit. It is so where there is none.
pub fn are_digits(bytes: &[u8]) -> bool
    ensures { result ≡ are_digits bytes.now }
{
    bytes.iter().all(|byte| byte.is_ascii_digit())
}

/// `number` in decimal, without leading zeros. `parse_u64` reads it back.
pub fn put_u64(alloc: Global, number: u64) -> Result<Word, NoMemory>
    ensures text { IfOk result (λ word. word ≡ decimal number) }
    ensures reads_back { IfOk result (λ word. number_of word ≡ Some number) }
{
    let text = format!(in alloc; "{number}")?;
    Word::of(alloc, text.as_bytes())
}
