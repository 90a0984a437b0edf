//! The script of `elcheck --sample`.
ghost use Rattle.std.specs.Prelude.{◌≡◌, ◌++◌, ◌≤◌, IfOk, OnOk};
ghost use Rattle.el_app.specs.Sample.{define_line, foreground_line, pipeline_line, if_line, last_line, sample_line, sample};

use el_words::{Bytes, NoMemory};
use std::alloc::Global;

/// The greatest number of lines that a sample has before its last one.
pub const MAX_SAMPLE: u64 = 4000;

/// A script of so many lines, from 1 to 4,000, and a last line `echo end`, each with its newline. It has
/// four kinds of lines in turn: a definition, a command that uses it, a pipeline and a condition.
///
/// The script is this project's own: it shows what a long one costs.
pub fn sample(alloc: Global, lines: u64) -> Result<Bytes, NoMemory>
    requires some { 1 ≤ lines }
    requires few { lines ≤ MAX_SAMPLE }
    ensures { IfOk result (λ text. text ≡ sample lines) }
{
    let mut text = Bytes::new(alloc);
    for before in 0..lines {
        put_line(alloc, before + 1, &mut text)?;
    }
    text.append(last_line())?;
    Ok(text)
}

fn put_line(alloc: Global, line: u64, text: &mut Bytes) -> Result<(), NoMemory>
    requires { 1 ≤ line }
    ensures { OnOk result (text.new ≡ text.old ++ sample_line line) }
{
    match line % 4 {
        1 => text.append(define_line(alloc, line)?.as_bytes()),
        2 => text.append(foreground_line(alloc, line)?.as_bytes()),
        3 => text.append(pipeline_line()),
        _ => text.append(if_line()),
    }
}

#[tactic(auto, unfolding(crate::specs::Sample::define_line))]
fn define_line(alloc: Global, line: u64) -> Result<Bytes, NoMemory>
    ensures { IfOk result (λ text. text ≡ define_line line) }
{
    let text = format!(in alloc; "define V{line} x{line}\n")?;
    Bytes::from_slice(alloc, text.as_bytes())
}

#[tactic(auto, unfolding(crate::specs::Sample::foreground_line))]
fn foreground_line(alloc: Global, line: u64) -> Result<Bytes, NoMemory>
    requires { 1 ≤ line }
    ensures { IfOk result (λ text. text ≡ foreground_line line) }
{
    let defined = line - 1;
    let text = format!(in alloc; "foreground {{ echo a $V{defined} }}\n")?;
    Bytes::from_slice(alloc, text.as_bytes())
}

#[tactic(auto, unfolding(crate::specs::Sample::pipeline_line))]
fn pipeline_line() -> &'static [u8]
    ensures { result.now ≡ pipeline_line }
{
    b"pipeline { echo p }\n"
}

#[tactic(auto, unfolding(crate::specs::Sample::if_line))]
fn if_line() -> &'static [u8]
    ensures { result.now ≡ if_line }
{
    b"if { true }\n"
}

#[tactic(auto, unfolding(crate::specs::Sample::last_line))]
fn last_line() -> &'static [u8]
    ensures { result.now ≡ last_line }
{
    b"echo end\n"
}
