//! Lists of words that the tested calls are handed.
use el_words::{Word, Words};
use std::alloc::Global;
use std::test::Fail;

/// These words.
pub(crate) fn words_of(alloc: Global, texts: &[&str]) -> Result<Words, Fail> {
    let mut words = Words::new(alloc);
    put_words(alloc, texts, &mut words)?;
    Ok(words)
}

/// Puts these words last.
pub(crate) fn put_words(alloc: Global, texts: &[&str], words: &mut Words) -> Result<(), Fail> {
    for text in texts {
        words.push(Word::from_bytes(alloc, text.as_bytes())?.as_bytes())?;
    }
    Ok(())
}

/// The words of a text, which stand between gaps; `''` is the empty one.
pub(crate) fn words_in(alloc: Global, text: &str) -> Result<Words, Fail> {
    let mut words = Words::new(alloc);
    for word in text.split_whitespace() {
        let word = if word == "''" { "" } else { word };
        words.push(Word::from_bytes(alloc, word.as_bytes())?.as_bytes())?;
    }
    Ok(words)
}
