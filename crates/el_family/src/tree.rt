//! A family as a tree: each member's line stands below its parent's.
ghost use Rattle.std.specs.Prelude.{◌≡◌, ◌<◌, ◌≤◌, ◌++◌, drop, length, codes, IfOk, OnOk, if◌then◌else◌, [], option_map};
ghost use Rattle.std.specs.Fmt.{decimal};
ghost use Rattle.el_family.specs.Processes.{process_of, run_of};
ghost use Rattle.el_family.specs.Agreement.{events_in};
ghost use Rattle.el_layout.specs.Layout.{hexadecimal_digit};
ghost use Rattle.el_family.specs.Trees.{is_plain, byte_text, word_text, words_text, indent, outcome_text, tree_line, is_from, lines_below, tree_lines};

use crate::family::Family;
use crate::member::{Member, Origin, Ran};
use crate::telling::{put_number, put_status};
use el_words::{Bytes, NoMemory, Words};
use std::alloc::Global;

/// A line for each member, below its parent's:
///
///     status T calls C: words
///
/// with T as in a report, C the number of its calls, and each word in quotes. It is indented by two spaces for each
/// process above it.
pub(crate) fn tree_of(alloc: Global, family: &Family) -> Result<Bytes, NoMemory>
    ensures { IfOk result (λ lines. lines ≡ tree_lines family.now) }
{
    let mut lines = Bytes::new(alloc);
    if let Some(first) = family.member(0) {
        put_line(alloc, 0, first, &mut lines)?;
        put_below(alloc, family, 0, 1, 1, &mut lines)?;
    }
    Ok(lines)
}

// Puts the lines of a parent's children behind that have this number or a later one, each with those of its own.
fn put_below(
    alloc: Global,
    family: &Family,
    parent: usize,
    depth: usize,
    from: usize,
    lines: &mut Bytes,
) -> Result<(), NoMemory>
    requires { depth ≤ from }
    ensures { OnOk result (lines.new ≡ lines.old ++ lines_below parent depth from (drop from family.now)) }
{
    for number in from..family.len() {
        let Some(member) = family.member(number) else {
            unreachable!();
        };
        if is_from(parent, member.origin) {
            put_line(alloc, depth, member, lines)?;
            put_below(alloc, family, number, depth + 1, number + 1, lines)?;
        }
    }
    Ok(())
}

fn is_from(parent: usize, origin: Option<Origin>) -> bool
    ensures { result ≡ is_from parent origin }
{
    match origin {
        Some(origin) => origin.member == parent,
        None => false,
    }
}

// Puts the line of a member behind.
#[tactic(auto, unfolding(crate::specs::Trees::tree_line))]
fn put_line(alloc: Global, depth: usize, member: &Member, lines: &mut Bytes) -> Result<(), NoMemory>
    ensures { OnOk result (lines.new ≡ lines.old ++ tree_line depth (process_of member.now)) }
{
    put_indent(depth, lines)?;
    put_outcome(alloc, &member.ran, lines)?;
    put_words(&member.words, lines)?;
    lines.append(b"\n")
}

#[tactic(auto, unfolding(crate::specs::Trees::outcome_text))]
fn put_outcome(alloc: Global, ran: &Option<Ran>, lines: &mut Bytes) -> Result<(), NoMemory>
    ensures { OnOk result (lines.new ≡ lines.old ++ outcome_text (option_map run_of ran.now)) }
{
    lines.append(b"status ")?;
    put_status(alloc, ran, lines)?;
    put_number(alloc, b" calls ", calls_in(ran) as u64, lines)?;
    lines.append(b":")
}

fn put_indent(depth: usize, lines: &mut Bytes) -> Result<(), NoMemory>
    ensures { OnOk result (lines.new ≡ lines.old ++ indent depth) }
{
    for _ in 0..depth {
        lines.append(b"  ")?;
    }
    Ok(())
}

// How many calls a run made; none where there is none.
fn calls_in(ran: &Option<Ran>) -> usize
    ensures { result ≡ length (events_in (option_map run_of ran.now)) }
{
    match ran {
        Some(ran) => ran.log.len(),
        None => 0,
    }
}

fn put_words(words: &Words, lines: &mut Bytes) -> Result<(), NoMemory>
    ensures { OnOk result (lines.new ≡ lines.old ++ words_text words.now) }
{
    for word in words {
        put_word(word, lines)?;
    }
    Ok(())
}

fn put_word(word: &[u8], lines: &mut Bytes) -> Result<(), NoMemory>
    ensures { OnOk result (lines.new ≡ lines.old ++ word_text word.now) }
{
    lines.append(b" \"")?;
    for byte in word {
        put_byte(*byte, lines)?;
    }
    lines.push(b'"')
}

#[tactic(auto, unfolding(crate::specs::Trees::byte_text))]
fn put_byte(byte: u8, lines: &mut Bytes) -> Result<(), NoMemory>
    ensures { OnOk result (lines.new ≡ lines.old ++ byte_text byte) }
{
    if is_plain(byte) {
        lines.push(byte)
    } else {
        lines.append(&[
            b'\\',
            b'0',
            b'x',
            hexadecimal_digit(byte / 16),
            hexadecimal_digit(byte % 16),
        ])
    }
}

fn is_plain(byte: u8) -> bool
    ensures { result ≡ is_plain byte }
{
    byte >= b' ' && byte != b'"' && byte != b'\\' && byte != 127
}

fn hexadecimal_digit(number: u8) -> u8
    requires { number < 16 }
    ensures { result ≡ hexadecimal_digit number }
{
    if number < 10 {
        b'0' + number
    } else {
        b'a' + (number - 10)
    }
}
