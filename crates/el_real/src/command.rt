//! What a start hands to the system: a program, its arguments, its environment and its directory.
ghost use Rattle.std.specs.Prelude.{◌≡◌, ◌<◌, ◌++◌, ◌∷◌, [], codes, length, IfOk, OnOk};
ghost use Rattle.std.specs.Option.{unwrap_or};
ghost use Rattle.std.specs.FinMap as map;
ghost use Rattle.el_real.specs.Commands.{is_own, is_beside, reads_scripts, program_of, arguments_of, entries_of, named_dir, ended, default_path};

use crate::binary::execline_name;
use el_env::Env as Variables;
use el_words::{NoMemory, Word, Words, name_of};
use std::alloc::Global;

// How many bytes the entry of a variable mostly takes, with its NUL.
const USUAL_ENTRY: usize = 64;

/// What a start is handed beside its program and its streams.
#[derive(Drop)]
pub struct Command<'a> {
    /// Its arguments, of which the first is its name, each with a NUL behind it.
    pub arguments: Vec<u8>,
    /// The entries of its environment, each with a NUL behind it.
    pub entries: Vec<u8>,
    /// Its directory, which is empty where it is this process's own.
    pub dir: &'a [u8],
    /// The folders, between colons, in which a program is searched whose name is no path.
    pub path: &'a [u8],
}

/// The command of a start with these words, of which there must be one, these variables and this directory, by a process in the
/// directory `own`. A program of this project is run by its binary, with all the words as its arguments, so that the top call takes
/// them behind the binary's name. `NoMemory` where there is no memory for it.
pub fn command_of<'a>(
    alloc: Global,
    own: &Word,
    words: &Words,
    env: &'a Variables,
    dir: &'a Word,
) -> Result<Command<'a>, NoMemory>
    requires { 0 < length words.now }
    ensures arguments { IfOk result (λ command. command.arguments.items ≡ ended (arguments_of words.now)) }
    ensures entries { IfOk result (λ command. command.entries.items ≡ ended (entries_of env.now)) }
    ensures dir { IfOk result (λ command. command.dir.now ≡ named_dir own.now dir.now) }
    ensures path { IfOk result (λ command. command.path.now ≡ unwrap_or (map.get env.now (codes "PATH")) default_path) }
{
    Ok(Command {
        arguments: arguments_of(alloc, words)?,
        entries: entries_of(alloc, env)?,
        dir: named_dir(own, dir),
        path: env.get(b"PATH").unwrap_or(default_path()),
    })
}

fn arguments_of(alloc: Global, words: &Words) -> Result<Vec<u8>, NoMemory>
    requires { 0 < length words.now }
    ensures { IfOk result (λ texts. texts.items ≡ ended (arguments_of words.now)) }
{
    let mut texts = Vec::with_capacity(alloc, room_for(words))?;
    if is_own(words.at(0)) {
        put_text(&mut texts, execline_name().as_bytes())?;
    }
    for word in words {
        put_text(&mut texts, word)?;
    }
    Ok(texts)
}

// How many bytes these words take, with execline's name before them and a NUL behind each.
fn room_for(words: &Words) -> usize {
    let count = words.len();
    words
        .bytes_between(0, count)
        .saturating_add(count)
        .saturating_add(execline_name().len() + 1)
}

fn entries_of(alloc: Global, env: &Variables) -> Result<Vec<u8>, NoMemory>
    ensures { IfOk result (λ texts. texts.items ≡ ended (entries_of env.now)) }
{
    let variables = env.sorted()?;
    let mut texts = Vec::with_capacity(alloc, variables.len().saturating_mul(USUAL_ENTRY))?;
    for variable in &variables {
        texts.extend_from_slice(variable.name)?;
        texts.push(b'=')?;
        put_text(&mut texts, variable.value)?;
    }
    Ok(texts)
}

// Puts a text last, with a NUL behind it.
fn put_text(texts: &mut Vec<u8>, text: &[u8]) -> Result<(), NoMemory>
    ensures { OnOk result (texts.new.items ≡ texts.old.items ++ (text.now ++ 0 ∷ [])) }
{
    texts.extend_from_slice(text)?;
    texts.push(0)?;
    Ok(())
}

fn named_dir<'a>(own: &Word, dir: &'a Word) -> &'a [u8]
    ensures { result.now ≡ named_dir own.now dir.now }
{
    if dir.as_bytes() == own.as_bytes() {
        b""
    } else {
        dir.as_bytes()
    }
}

/// Where a program is searched whose name is no path, by a process that has no `PATH`.
#[tactic(auto, unfolding(crate::specs::Commands::default_path))]
pub fn default_path() -> &'static [u8]
    ensures { result.now ≡ default_path }
{
    b"/bin:/usr/bin"
}

/// The program of a start with these words, of which there must be one, where `binary` names the own binary.
pub fn program_of<'a>(binary: &'a str, words: &'a Words) -> &'a [u8]
    requires { 0 < length words.now }
    ensures { result.now ≡ program_of binary.now words.now }
{
    let first = words.at(0);
    if is_own(first) {
        binary.as_bytes()
    } else {
        first
    }
}

/// Whether the word names a program of this project.
pub fn is_own(word: &[u8]) -> bool
    ensures { result ≡ is_own word.now }
{
    name_of(word).is_some() || reads_scripts(word)
}

#[tactic(auto, unfolding(crate::specs::Commands::reads_scripts))]
fn reads_scripts(word: &[u8]) -> bool
    ensures { result ≡ reads_scripts word.now }
{
    word == b"execlineb".as_slice() || word == b"elcheck".as_slice() || word == b"elfmt".as_slice()
}

/// Whether the word names a program of this project that scripts call and that has a binary of its own.
#[tactic(auto, unfolding(crate::specs::Commands::is_beside))]
pub fn is_beside(word: &[u8]) -> bool
    ensures { result ≡ is_beside word.now }
{
    word == b"eltest".as_slice() || word == b"elglob".as_slice() || word == b"elgetopt".as_slice()
}
