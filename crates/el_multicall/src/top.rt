//! The words of the top call, and whether they are elrecord's.
ghost use Rattle.el_room.specs.Vocabulary.{option_copied, bytes_eq, HasNul};
ghost use Rattle.std.specs.Prelude.{◌≡◌, ◌<◌, ◌&&◌, drop, length, IfOk, IfSome, option_map};
ghost use Rattle.el_app.specs.Names.{execline_name};
ghost use Rattle.el_multicall.specs.Record.{elrecord_name, is_named_elrecord, elrecord_words};
ghost use Rattle.el_multicall.specs.Top.{built_name, top_words};

use crate::elrecord::elrecord_name;
use el_app::base_name;
use el_words::{NoMemory, Words};
use std::alloc::Global;

/// The words for the top call of a process with these words: the name under which this program is built stands for
/// `execline`. `NoMemory` where there is no memory for them.
pub fn top_words(alloc: Global, words: Words) -> Result<Words, NoMemory>
    ensures { IfOk result (λ top. top ≡ top_words words) }
{
    if words.is_empty() || base_name(words.at(0)) != built_name() {
        return Ok(words);
    }
    let mut top = Words::new(alloc);
    top.push(installed_name())?;
    for place in 1..words.len() {
        top.push(words.at(place))?;
    }
    Ok(top)
}

/// The place at which the words of elrecord's call begin: where the base name of the first word is elrecord's, or that of
/// `execline` with elrecord's name behind it. None where they are the top call's.
pub fn elrecord_place(words: &Words) -> Option<usize>
    ensures words { option_map (λ place. drop place words.now) result ≡ elrecord_words words.now }
    ensures within { IfSome result (λ place. place < length words.now) }
{
    let Some(first) = words.first() else {
        return None;
    };
    let name = base_name(first);
    if is_elrecord(name) {
        return Some(0);
    }
    if leads_to_elrecord(name, words.get(1)) {
        return Some(1);
    }
    None
}

fn is_elrecord(word: &[u8]) -> bool
    ensures { result ≡ bytes_eq word.now elrecord_name }
{
    word == elrecord_name()
}

// Whether a name is `execline` and the word behind it elrecord's.
fn leads_to_elrecord(name: &[u8], next: Option<&[u8]>) -> bool
    ensures { result ≡ bytes_eq name.now execline_name && is_named_elrecord (option_copied next.entry) }
{
    name == installed_name() && is_named_elrecord(next)
}

fn is_named_elrecord(word: Option<&[u8]>) -> bool
    ensures { result ≡ is_named_elrecord (option_copied word.entry) }
{
    match word {
        Some(word) => is_elrecord(word),
        None => false,
    }
}

// The name under which this program is built.
#[tactic(auto, unfolding(crate::specs::Top::built_name))]
fn built_name() -> &'static [u8]
    ensures { result.now ≡ built_name }
{
    b"el_multicall"
}

// The name under which it is installed.
#[tactic(auto, unfolding(el_app::specs::Names::execline_name))]
fn installed_name() -> &'static [u8]
    ensures name { result.now ≡ execline_name }
    ensures no_nul { HasNul result.now → ⊥ }
{
    b"execline"
}
