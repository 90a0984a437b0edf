//! Reading a block: how many words it has, and the words without their leading spaces.
ghost use Rattle.std.specs.Prelude.{◌≡◌, ◌<◌, ◌+◌, ◌≤◌, ℕ, List, ◌++◌, length, drop, Ok, IfOk, IfSome};
ghost use Rattle.std.specs.Result.{result_ok};
ghost use Rattle.el_words.specs.Args.{Args, spelled};
ghost use Rattle.el_blocks.specs.Block.{block_length, block_words, first_unquoted_of, is_quoted, unquoted, unspelled};

use el_words::{NoMemory, Room, Words};
use std::alloc::Global;
use std::error::Error;
use std::fmt;

/// No word is empty, so that no block ends.
#[derive(Clone, Copy, Debug, PartialEq, Eq)]
pub struct Unterminated;

/// Writes `unterminated block`.
impl fmt::Display for Unterminated {
    ghost use Rattle.std.specs.Prelude.{Some};
    ghost use Rattle.el_blocks.specs.Faults.{unterminated_text};

    ghost output = { λ _. Some unterminated_text };

    #[tactic(auto, unfolding(crate::specs::Faults::unterminated_text))]
    fn fmt<W: fmt::Write>(&self, f: &mut fmt::Formatter<W>) -> fmt::Result {
        f.write_str("unterminated block")
    }
}

impl Error for Unterminated {}

/// How many words stand before the first empty one; `Unterminated` exactly where there is none.
///
/// At the front of a spelled outermost block this is where the block ends. Takes no memory, and looks
/// at the words' lengths alone.
pub fn block_len(words: &Words) -> Result<usize, Unterminated>
    ensures found { result_ok result ≡ block_length words.now }
    ensures block { (inside : Args) (rest : List (List ℕ)) → words.now ≡ block_words 0 inside ++ rest → result ≡ Ok (length (spelled 1 inside)) }
{
    block_len_at(words, 0).ok_or(Unterminated)
}

/// How many words stand from `from` on before the next empty one; None exactly where there is none.
/// `from` is at most the number of words. Takes no memory, and looks at the words' lengths alone.
pub fn block_len_at(words: &Words, from: usize) -> Option<usize>
    requires { from ≤ length words.now }
    ensures found { result ≡ block_length (drop from words.now) }
    ensures within { IfSome result (λ len. from + len < length words.now) }
{
    words.iter().skip(from).position(|word| word.is_empty())
}

/// The first of the first `len` words that has no leading space; None exactly where each has one.
/// `len` is at most the number of words. Takes no memory.
pub fn first_unquoted(words: &Words, len: usize) -> Option<usize>
    requires { len ≤ length words.now }
    ensures { result ≡ first_unquoted_of len words.now }
{
    words.iter().take(len).position(|word| !is_quoted(word))
}

/// Whether `word` begins with a space.
fn is_quoted(word: &[u8]) -> bool
    ensures { result ≡ is_quoted word.now }
{
    word.first() == Some(&b' ')
}

/// The first `len` words, each without its leading space where it has one: of a spelled block its
/// content, one level up. `len` is at most the number of words. `NoMemory` may come at any words; the
/// memory is taken in one piece before the first word.
pub fn unspell_front(alloc: Global, words: &Words, len: usize) -> Result<Words, NoMemory>
    requires { len ≤ length words.now }
    ensures ok { IfOk result (λ front. front ≡ unspelled len words.now) }
    ensures block { IfOk result (λ front. (inside : Args) (rest : List (List ℕ)) → words.now ≡ spelled 1 inside ++ rest → len ≡ length (spelled 1 inside) → front ≡ spelled 0 inside) }
{
    unspell_at(alloc, words, 0, len)
}

/// The `len` words from `from` on, each without its leading space where it has one. There must be so
/// many. `NoMemory` may come at any words; the memory is taken in one piece before the first word.
pub fn unspell_at(alloc: Global, words: &Words, from: usize, len: usize) -> Result<Words, NoMemory>
    requires { from + len ≤ length words.now }
    ensures { IfOk result (λ block. block ≡ unspelled len (drop from words.now)) }
{
    // There are fewer than 2^63 words, so that the sums fit.
    let _few = words.len();
    let mut block = Room::with(alloc, len, words.bytes_between(from, from + len))?;
    for place in 0..len {
        block.push(unquoted(words.at(from + place)));
    }
    Ok(block.into_words())
}

/// `word` without its leading space, where it has one.
fn unquoted(word: &[u8]) -> &[u8]
    ensures { result.now ≡ unquoted word.now }
{
    match word {
        [b' ', rest @ ..] => rest,
        _ => word,
    }
}
