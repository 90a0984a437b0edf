//! What the words of a call say that stands in no chain.
ghost use Rattle.el_room.specs.Vocabulary.{are_good_opts, first_byte, value_by, groups_told};
ghost use Rattle.std.specs.Prelude.{◌≡◌, ◌<◌, ◌≤◌, true, length, drop, IfOk, codes};
ghost use Rattle.el_app.specs.Options.{strictness_in, least_of, placement_in, source_by, args_of, asked_behind, asked, call_options};

use crate::asked::{Asked, Placement, Source};
use el_check::Params;
use el_front::{CallLetters, read_call, trouble_of};
use el_options::{Strictness, Table};
use el_proc::Trouble;
use el_words::{NoMemory, Word, Words, parse_u64};
use std::alloc::Global;

/// What the words of a call say, of which the first is its name, or what it complains of. In this order
/// that is a letter that the table doesn't have, a value that is missing, a value of the last `-S` or of the
/// last `-s` that is no number up to 65,535, or that neither `-c` nor a word behind the options says where
/// the script is.
pub(crate) fn read_asked<const N: usize>(
    alloc: Global,
    groups: &[&[u8]],
    table: &Table<N>,
    words: &Words,
) -> Result<Result<Asked, Trouble>, NoMemory>
    requires named { 0 < length words.now }
    requires few { N ≤ 16 }
    requires good { are_good_opts table.now.opts ≡ true }
    ensures { IfOk result (λ read. read ≡ asked (call_options (groups_told groups.now) table.now.opts) words.now) }
{
    match read_call(alloc, groups, table, words)? {
        Ok(letters) if letters.has_bad_last_number() => Ok(Err(Trouble::BadNumber)),
        Ok(letters) => asked_behind(alloc, letters, words),
        Err(fault) => Ok(Err(trouble_of(fault))),
    }
}

// What good letters say, and the words behind them.
fn asked_behind(
    alloc: Global,
    letters: CallLetters,
    words: &Words,
) -> Result<Result<Asked, Trouble>, NoMemory>
    requires { letters.used ≤ length words.now }
    ensures { IfOk result (λ read. read ≡ asked_behind letters.in_force.items (drop letters.used words.now)) }
{
    let strict = strictness_in(&letters);
    let placement = placement_in(&letters);
    let upgrades = letters.has(b'u');
    let keeps = letters.has(b'k');
    let used = letters.used;
    let Some(source) = source_by(alloc, letters, words)? else {
        return Ok(Err(Trouble::Usage));
    };
    let args = args_of(&source, used, words)?;
    Ok(Ok(Asked {
        source,
        strict,
        placement,
        upgrades,
        keeps,
        args,
    }))
}

// What the last of -q, -w and -W says.
fn strictness_in(letters: &CallLetters) -> Option<Strictness>
    ensures { result ≡ strictness_in letters.now.in_force.items }
{
    if letters.has(b'q') {
        Some(Strictness::Lenient)
    } else if letters.has(b'w') {
        Some(Strictness::Warning)
    } else if letters.has(b'W') {
        Some(Strictness::Refusing)
    } else {
        None
    }
}

// What the last of -P, -S and -s says.
fn placement_in(letters: &CallLetters) -> Placement
    ensures { result ≡ placement_in letters.now.in_force.items }
{
    if letters.has(b'P') {
        return Placement::By(Params::Leave);
    }
    if let Some(text) = letters.value(b'S') {
        return Placement::By(Params::Subst(least_of(text)));
    }
    match letters.value(b's') {
        Some(text) => Placement::Shifted(least_of(text)),
        None => Placement::By(Params::Frame),
    }
}

// The number that a value says.
fn least_of(text: &Word) -> u64
    ensures { result ≡ least_of text.now }
{
    parse_u64(text.as_bytes()).unwrap_or(0)
}

// The script of -c, or else the file that the first word behind the options names.
fn source_by(alloc: Global, letters: CallLetters, words: &Words) -> Result<Option<Source>, NoMemory>
    ensures { IfOk result (λ source. source ≡ source_by (value_by letters.in_force.items (first_byte (codes "c"))) (drop letters.used words.now)) }
{
    let used = letters.used;
    if let Some(script) = letters.into_value(b'c') {
        return Ok(Some(Source::Inline(script)));
    }
    if used < words.len() {
        let path = Word::of(alloc, words.at(used))?;
        return Ok(Some(Source::File(path)));
    }
    Ok(None)
}

// The words behind the script, where so many words were read for the letters.
fn args_of(source: &Source, used: usize, words: &Words) -> Result<Words, NoMemory>
    requires { used ≤ length words.now }
    ensures { IfOk result (λ args. args ≡ args_of source.now (drop used words.now)) }
{
    let mut args = words.copy()?;
    args.drop_front(used);
    if matches!(source, Source::File(_)) && !args.is_empty() {
        args.drop_front(1);
    }
    Ok(args)
}
