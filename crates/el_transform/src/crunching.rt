//! Keeping one delimiter of each run, and dropping the last.
ghost use Rattle.std.specs.Prelude.{◌≡◌, IfOk};
ghost use Rattle.el_transform.specs.Crunching.{is_delimiter, crunched, chomped};
ghost use Rattle.el_transform.specs.Computed.{crunched_after};

use el_words::{ByteSet, NoMemory};
use std::alloc::Global;

/// The first byte of each longest run of delimiters, and every byte that is none.
pub fn crunch(alloc: Global, delims: &ByteSet, bytes: &[u8]) -> Result<Vec<u8>, NoMemory>
    ensures { IfOk result (λ kept. kept.items ≡ crunched delims.now bytes.now) }
{
    crunch_behind(alloc, false, delims, bytes)
}

/// What `crunch` keeps of bytes that stand behind a delimiter or not.
pub fn crunch_behind(
    alloc: Global,
    is_behind_delimiter: bool,
    delims: &ByteSet,
    bytes: &[u8],
) -> Result<Vec<u8>, NoMemory>
    ensures { IfOk result (λ kept. kept.items ≡ crunched_after (is_delimiter delims.now) is_behind_delimiter bytes.now) }
{
    let mut kept = Vec::with_capacity(alloc, bytes.len())?;
    let mut is_after_delimiter = is_behind_delimiter;
    for byte in bytes {
        let is_delimiter = delims.has(*byte);
        if !(is_after_delimiter && is_delimiter) {
            kept.push(*byte)?;
        }
        is_after_delimiter = is_delimiter;
    }
    Ok(kept)
}

/// The bytes without the last one, where that is a delimiter.
pub fn chomp<'a>(delims: &ByteSet, bytes: &'a [u8]) -> &'a [u8]
    ensures { result.now ≡ chomped delims.now bytes.now }
{
    match bytes {
        [front @ .., last] if delims.has(*last) => front,
        _ => bytes,
    }
}
