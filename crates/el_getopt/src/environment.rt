//! The environment after option parsing.
ghost use Rattle.std.specs.Prelude.{◌≡◌, ◌+◌, ◌<◌, ◌≤◌, ◌^◌, true, [], drop, length, IfOk, OnOk, slice_index_or, if◌then◌else◌};
ghost use Rattle.std.specs.FinMap as map;
ghost use Rattle.el_words.specs.Word.{HasNul};
ghost use Rattle.el_vars.specs.Numbered.{without_numbered};
ghost use Rattle.el_getopt.specs.Environment.{option_prefix, option_name, option_value, is_option_name, without_options, with_options, parsed_environment};
ghost use Rattle.el_getopt.specs.Reader.{letter_told, letters_told, are_letters};

use crate::reader::{FoundLetter, Place, Reader};
use el_env::{Env, Positionals};
use el_words::{NoMemory, Word, Words, put_u64};
use std::alloc::Global;

// The value of a letter that takes none.
const READ: &[u8] = b"1";

/// Makes the environment that of a parsing of these positional parameters, of whose arguments `reader` has read so many. After an
/// error some of it may be made.
pub(crate) fn set_parsed(
    alloc: Global,
    reader: Reader,
    positionals: Positionals,
    env: &mut Env,
) -> Result<(), NoMemory>
    requires used { reader.used ≤ length positionals.args }
    requires named { are_letters reader.found.items ≡ true }
    ensures { OnOk result (env.new ≡ parsed_environment (letters_told positionals.args reader.found.items) positionals.zero positionals.args (drop reader.used positionals.args) env.old) }
{
    let Positionals { zero, mut args } = positionals;
    remove_options(env)?;
    set_options(alloc, &reader.found, &args, env)?;
    let count = args.len() as u64;
    let gone = reader.used as u64;
    args.drop_front(reader.used);
    remove_numbered(alloc, gone, count - gone, env)?;
    env.set_positionals(&zero, &args)
}

// Removes the variables of letters. After an error some may be removed.
fn remove_options(env: &mut Env) -> Result<(), NoMemory>
    ensures { OnOk result (env.new ≡ without_options env.old) }
{
    for name in &env.names()? {
        remove_option(name, env);
    }
    Ok(())
}

// Removes the variable, where it is that of a letter.
fn remove_option(name: &[u8], env: &mut Env)
    ensures { env.new ≡ (if is_option_name name.now then map.remove env.old name.now else env.old) }
{
    if is_option_name(name) {
        env.unset(name);
    }
}

#[tactic(auto, unfolding(crate::specs::Environment::option_prefix))]
fn is_option_name(name: &[u8]) -> bool
    ensures { result ≡ is_option_name name.now }
{
    name.starts_with(b"ELGETOPT_")
}

// Sets the variables of letters, one after the other. After an error some may be set.
fn set_options(
    alloc: Global,
    found: &[FoundLetter],
    args: &Words,
    env: &mut Env,
) -> Result<(), NoMemory>
    requires { are_letters found.now ≡ true }
    ensures { OnOk result (env.new ≡ with_options (letters_told args.now found.now) env.old) }
{
    for one in found {
        let name = option_name(alloc, one.letter)?;
        let value = option_value(alloc, *one, args)?;
        env.insert(name.as_bytes(), value)?;
    }
    Ok(())
}

#[tactic(auto, unfolding(crate::specs::Environment::option_prefix))]
fn option_name(alloc: Global, letter: u8) -> Result<Word, NoMemory>
    requires { 0 < letter }
    ensures { IfOk result (λ name. name ≡ option_name letter) }
{
    let mut name = Word::of(alloc, b"ELGETOPT_")?;
    name.push(letter)?;
    Ok(name)
}

fn option_value(alloc: Global, found: FoundLetter, args: &Words) -> Result<Word, NoMemory>
    ensures { IfOk result (λ value. value ≡ option_value (letter_told args.now found)) }
{
    match found.value {
        Some(place) => Word::of(alloc, text_at(args, place)),
        None => Word::of(alloc, READ),
    }
}

// What stands at a place of the arguments.
fn text_at(args: &Words, place: Place) -> &[u8]
    ensures text { result.now ≡ drop place.from (slice_index_or args.now place.word []) }
    ensures no_nul { HasNul result.now → ⊥ }
{
    if place.word < args.len() {
        args.at(place.word).get(place.from..).unwrap_or(&[])
    } else {
        &[]
    }
}

// Removes so many variables whose names are the numbers behind `last`. After an error some of these may be removed.
fn remove_numbered(alloc: Global, count: u64, last: u64, env: &mut Env) -> Result<(), NoMemory>
    requires { count + last < 2 ^ 64 }
    ensures { OnOk result (env.new ≡ without_numbered count (last + 1) env.old) }
{
    for place in 0..count {
        env.unset(put_u64(alloc, last + place + 1)?.as_bytes());
    }
    Ok(())
}
