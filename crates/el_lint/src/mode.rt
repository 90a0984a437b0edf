//! How scripts are called, by ellint's own words.
#![tactic(auto, using(crate::proofs::Calling::calling))]

ghost use Rattle.el_room.specs.Vocabulary.{are_good_opts, groups_told};
ghost use Rattle.std.specs.Prelude.{◌≡◌, ◌<◌, ◌≤◌, true, length, IfOk, OnOk};
ghost use Rattle.el_lint.specs.Modes.{least_of, mode_in, called, asked};
ghost use Rattle.el_lint.specs.ModesTold.{options_of, called_told, asked_told};

use el_check::Params;
use el_front::{CallLetters, read_call, trouble_of};
use el_options::{Opt, Table};
use el_proc::Trouble;
use el_words::{NoMemory, Word, Words, parse_u64};
use std::alloc::Global;

/// The options of ellint.
const ELLINT: Table<3> = Table {
    opts: [
        Opt {
            letter: b'P',
            takes: false,
        },
        Opt {
            letter: b'S',
            takes: true,
        },
        Opt {
            letter: b's',
            takes: true,
        },
    ],
};

/// How all scripts are called, where a letter says so, and the files in which they are.
#[derive(Drop)]
pub struct Asked {
    pub mode: Option<Params>,
    pub files: Words,
}

/// What the words of a call ask for, of which the first is its name, or what it complains of: a bad letter, a number of `-S` or `-s` that is
/// none up to 65,535, or no file.
pub fn read_asked(alloc: Global, words: Words) -> Result<Result<Asked, Trouble>, NoMemory>
    requires { 0 < length words }
    ensures { IfOk result (λ answer. asked_told answer ≡ asked words) }
{
    let called = match read_called(alloc, &[b"PSs"], &ELLINT, &words)? {
        Ok(called) => called,
        Err(trouble) => return Ok(Err(trouble)),
    };
    let mut files = words;
    files.drop_front(called.used);
    if files.is_empty() {
        return Ok(Err(Trouble::Usage));
    }
    Ok(Ok(Asked {
        mode: called.mode,
        files,
    }))
}

/// What a call says of scripts, and how many of its words were read for that, its name among them.
#[derive(Clone, Copy)]
pub(crate) struct Called {
    pub(crate) mode: Option<Params>,
    pub(crate) used: usize,
}

/// What words say with these options, or what is complained of.
pub(crate) fn read_called<const N: usize>(
    alloc: Global,
    groups: &[&[u8]],
    table: &Table<N>,
    words: &Words,
) -> Result<Result<Called, Trouble>, NoMemory>
    requires named { 0 < length words.now }
    requires few { N ≤ 16 }
    requires good { are_good_opts table.now.opts ≡ true }
    ensures called { IfOk result (λ answer. called_told words.now answer ≡ called (options_of (groups_told groups.now) table.now.opts) words.now) }
    ensures within { IfOk result (λ answer. IfOk answer (λ called. called.used ≤ length words.now)) }
{
    let letters = match read_call(alloc, groups, table, words)? {
        Ok(letters) => letters,
        Err(fault) => return Ok(Err(trouble_of(fault))),
    };
    if letters.has_bad_last_number() {
        return Ok(Err(Trouble::BadNumber));
    }
    Ok(Ok(Called {
        mode: mode_in(&letters),
        used: letters.used,
    }))
}

// What the last of -P, -S and -s says.
fn mode_in(letters: &CallLetters) -> Option<Params>
    ensures { result ≡ mode_in letters.now.in_force.items }
{
    if letters.has(b'P') {
        return Some(Params::Leave);
    }
    if let Some(text) = letters.value(b'S') {
        return Some(Params::Subst(least_of(text)));
    }
    match letters.value(b's') {
        Some(text) => Some(Params::Subst(least_of(text))),
        None => None,
    }
}

// The number that a value says.
fn least_of(text: &Word) -> u64
    ensures { result ≡ least_of text.now }
{
    parse_u64(text.as_bytes()).unwrap_or(0)
}
