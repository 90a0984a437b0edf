//! The word of an input.
ghost use Rattle.std.specs.Prelude.{◌≡◌, IfOk};
ghost use Rattle.el_words.specs.Word.{HasNul};
ghost use Rattle.el_proc.specs.Inputs.{has_nul, before_nul, without_newline, input_word};

use el_words::{NoMemory, Word};
use memchr::memchr;
use std::alloc::Global;

/// The word of an input: what stands before the first NUL. Unless all is kept, it is without one newline
/// at its end.
pub fn input_word(alloc: Global, bytes: &[u8], keeps: bool) -> Result<Word, NoMemory>
    ensures { IfOk result (λ word. word ≡ input_word keeps bytes.now) }
{
    let text = before_nul(bytes);
    Word::of(alloc, if keeps { text } else { without_newline(text) })
}

/// Whether a NUL stands among the bytes.
pub fn has_nul(bytes: &[u8]) -> bool
    ensures { result ≡ has_nul bytes.now }
{
    bytes.contains(&0)
}

/// The bytes before the first NUL, or all where there is none.
pub fn before_nul(bytes: &[u8]) -> &[u8]
    ensures same { result.now ≡ before_nul bytes.now }
    ensures no_nul { HasNul result.now → ⊥ }
{
    match memchr(0, bytes) {
        Some(place) => &bytes[..place],
        None => bytes,
    }
}

// The bytes without the last one, where it is a newline.
fn without_newline(bytes: &[u8]) -> &[u8]
    ensures same { result.now ≡ without_newline bytes.now }
    ensures no_nul { (HasNul bytes.now → ⊥) → HasNul result.now → ⊥ }
{
    match bytes.strip_suffix(b"\n") {
        Some(rest) => rest,
        None => bytes,
    }
}
