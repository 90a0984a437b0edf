//! The words that the process was started with.

ghost use Rattle.std.specs.Io.{WritesAtMost};

use crate::end::TestEnd;
use el_words::{NoMemory, Word, WordFault, Words};
use std::alloc::Global;
use std::env::FillError;
use std::rt::Env;

// Enough for most words; a longer one makes the buffer grow.
const FIRST_LENGTH: usize = 4096;

/// The process's words behind its name. The error is how eltest ends without them: Failed where one holds a NUL or
/// fits no buffer, and NoMemory where there is no memory for them.
pub fn words_of(rt: &impl Env, alloc: Global) -> Result<Words, TestEnd> {
    let mut buffer = vec![in alloc; 0u8; FIRST_LENGTH].map_err(NoMemory::from)?;
    let mut words = Words::new(alloc);
    for place in 1..usize::MAX {
        let Some(length) = read(rt, place, &mut buffer)? else {
            break;
        };
        let bytes = buffer.get(..length).ok_or(TestEnd::Failed)?;
        words.push(word_of(alloc, bytes)?.as_bytes())?;
    }
    Ok(words)
}

// The length of the word, which then stands in the buffer; None where there is none.
fn read(rt: &impl Env, place: usize, buffer: &mut Vec<u8>) -> Result<Option<usize>, TestEnd> {
    for _ in 0..usize::BITS {
        match rt.arg(place, buffer.as_mut_slice()) {
            Ok(length) => return Ok(Some(length)),
            Err(FillError::NotPresent) => return Ok(None),
            Err(FillError::TooLong) => {
                let longer = buffer.len().saturating_mul(2);
                buffer.resize(longer, 0).map_err(NoMemory::from)?;
            }
        }
    }
    Err(TestEnd::Failed)
}

fn word_of(alloc: Global, bytes: &[u8]) -> Result<Word, TestEnd> {
    match Word::from_bytes(alloc, bytes) {
        Ok(word) => Ok(word),
        Err(WordFault::Nul) => Err(TestEnd::Failed),
        Err(WordFault::NoMemory) => Err(TestEnd::NoMemory),
    }
}
