//! Splitting a value at delimiters.
ghost use Rattle.std.specs.Prelude.{◌≡◌, ◌≤◌, count_by, length, IfOk};
ghost use Rattle.el_words.specs.Word.{HasNul};
ghost use Rattle.el_transform.specs.Crunching.{is_delimiter};
ghost use Rattle.el_transform.specs.Splitting.{Splits};

use el_words::{ByteSet, NoMemory, Room, Words};
use std::alloc::Global;

/// The words that delimiters end, and the bytes after the last delimiter where there are any. Their
/// memory is taken in one piece before the first of them.
pub fn split(alloc: Global, delims: &ByteSet, bytes: &[u8]) -> Result<Words, NoMemory>
    requires { HasNul bytes.now → ⊥ }
    ensures { IfOk result (λ words. Splits delims.now bytes.now words) }
{
    let mut words = Room::with(alloc, count_delimiters(delims, bytes) + 1, bytes.len())?;
    let mut start = 0;
    for (end, byte) in bytes.iter().enumerate() {
        if delims.has(*byte) {
            words.push(&bytes[start..end]);
            start = end + 1;
        }
    }
    if start < bytes.len() {
        words.push(&bytes[start..]);
    }
    Ok(words.into_words())
}

/// How many of the bytes are delimiters.
fn count_delimiters(delims: &ByteSet, bytes: &[u8]) -> usize
    ensures count { result ≡ count_by (is_delimiter delims.now) bytes.now }
    ensures within { result ≤ length bytes.now }
{
    bytes.iter().filter(|byte| delims.has(**byte)).count()
}
