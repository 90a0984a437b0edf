//! The keys that the words of a script refer to.
ghost use Rattle.std.specs.Prelude.{◌≡◌, ◌++◌, IfOk, OnOk};
ghost use Rattle.el_subst.specs.References.{references_of};
ghost use Rattle.el_lint.specs.Keys.{keys_of, keys_at, keys_in, is_remover, risked_in};

use el_lex::{Token, Tokens};
use el_subst::next_reference;
use el_words::{Bytes, NoMemory};
use std::alloc::Global;

/// The keys that the words among tokens refer to, in order.
pub(crate) fn keys_in(alloc: Global, tokens: &Tokens) -> Result<Vec<Bytes>, NoMemory>
    ensures { IfOk result (λ keys. keys.items ≡ keys_in tokens.now) }
{
    let mut keys = Vec::new(alloc);
    for token in tokens {
        put_keys_at(alloc, token, &mut keys)?;
    }
    Ok(keys)
}

/// Those that the words behind commands which take something away refer to, up to the next brace.
pub(crate) fn risked_in(alloc: Global, tokens: &Tokens) -> Result<Vec<Bytes>, NoMemory>
    ensures { IfOk result (λ keys. keys.items ≡ risked_in tokens.now) }
{
    let mut keys = Vec::new(alloc);
    let mut is_behind = false;
    for token in tokens {
        match token {
            Token::Word { word, .. } if is_behind => put_keys_of(
                alloc,
                word.as_bytes(),
                &mut keys,
            )?,
            Token::Word { word, .. } => is_behind = is_remover(word.as_bytes()),
            Token::Open { .. } | Token::Close { .. } => is_behind = false,
        }
    }
    Ok(keys)
}

// A command that takes something away by its words.
#[tactic(auto, unfolding(crate::specs::Keys::is_remover))]
fn is_remover(word: &[u8]) -> bool
    ensures { result ≡ is_remover word.now }
{
    word == b"rm".as_slice()
        || word == b"rmdir".as_slice()
        || word == b"mv".as_slice()
        || word == b"dd".as_slice()
        || word == b"kill".as_slice()
}

fn put_keys_at(alloc: Global, token: &Token, keys: &mut Vec<Bytes>) -> Result<(), NoMemory>
    ensures { OnOk result (keys.new.items ≡ keys.old.items ++ keys_at token.now) }
{
    match token {
        Token::Word { word, .. } => put_keys_of(alloc, word.as_bytes(), keys),
        Token::Open { .. } | Token::Close { .. } => Ok(()),
    }
}

fn put_keys_of(alloc: Global, text: &[u8], keys: &mut Vec<Bytes>) -> Result<(), NoMemory>
    ensures { OnOk result (keys.new.items ≡ keys.old.items ++ keys_of (references_of text.now)) }
{
    let mut rest = text;
    while let Some(found) = next_reference(rest) {
        keys.push(Bytes::from_slice(alloc, found.key)?)?;
        rest = found.rest;
    }
    Ok(())
}
