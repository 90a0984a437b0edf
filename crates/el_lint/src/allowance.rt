//! The comments that silence a lint on the line behind them.
ghost use Rattle.el_room.specs.Vocabulary.{option_copied, list_any, slice_split, bytes_eq};
ghost use Rattle.std.specs.Prelude.{◌≡◌, ◌++◌, IfOk, OnOk};
ghost use Rattle.el_lint.specs.Allowances.{is_blank, is_newline, behind_blanks, allowing, allowed_by, allowance_at, allowances_from, allowances_of, allows, is_allowed};

use crate::newline::cut_line;
use el_words::{Bytes, NoMemory};
use std::alloc::Global;

/// A comment that allows lints: its line, and the names behind its beginning.
#[derive(Drop)]
pub(crate) struct Allowance {
    pub(crate) line: u32,
    pub(crate) names: Bytes,
}

/// Those of a script.
pub(crate) fn allowances_of(alloc: Global, script: &[u8]) -> Result<Vec<Allowance>, NoMemory>
    ensures { IfOk result (λ allowances. allowances.items ≡ allowances_of script.now) }
{
    let mut allowances = Vec::new(alloc);
    let mut line: u32 = 0;
    let mut left = Some(script);
    while let Some(text) = left {
        let cut = cut_line(text);
        line = line.checked_add(1).ok_or(NoMemory)?;
        put_allowance(alloc, line, cut.piece, &mut allowances)?;
        left = cut.rest;
    }
    Ok(allowances)
}

fn put_allowance(
    alloc: Global,
    line: u32,
    text: &[u8],
    allowances: &mut Vec<Allowance>,
) -> Result<(), NoMemory>
    ensures { OnOk result (allowances.new.items ≡ allowances.old.items ++ allowance_at line text.now) }
{
    if let Some(names) = allowed_by(behind_blanks(text)) {
        allowances.push(Allowance {
            line,
            names: Bytes::from_slice(alloc, names)?,
        })?;
    }
    Ok(())
}

// What a line says behind its blanks.
fn behind_blanks(text: &[u8]) -> &[u8]
    ensures { result.now ≡ behind_blanks text.now }
{
    let mut rest = text;
    while let [first, more @ ..] = rest {
        if !is_blank(*first) {
            return rest;
        }
        rest = more;
    }
    rest
}

// The names behind the beginning of such a comment.
fn allowed_by(text: &[u8]) -> Option<&[u8]>
    ensures { option_copied result ≡ allowed_by text.now }
{
    let beginning = allowing();
    if text.starts_with(beginning) {
        Some(&text[beginning.len()..])
    } else {
        None
    }
}

#[tactic(auto, unfolding(crate::specs::Allowances::allowing))]
fn allowing() -> &'static [u8]
    ensures { result.now ≡ allowing }
{
    b"# ellint: allow "
}

fn is_blank(byte: u8) -> bool
    ensures { result ≡ is_blank byte }
{
    byte == b' ' || byte == b'\t'
}

/// Whether one of the comments allows the lint of this name on this line.
pub(crate) fn is_allowed(allowances: &[Allowance], line: u32, name: &[u8]) -> bool
    ensures { result ≡ is_allowed allowances.now line name.now }
{
    allowances
        .iter()
        .any(|allowance| allowance.allows(line, name))
}

impl Allowance {
    fn allows(&self, line: u32, name: &[u8]) -> bool
        ensures { result ≡ allows line name.now self.now }
    {
        u64::from(self.line) + 1 == u64::from(line) && names_one(self.names.as_bytes(), name)
    }
}

// Whether a name is one of the names in a text.
fn names_one(names: &[u8], name: &[u8]) -> bool
    ensures { result ≡ list_any (λ part. bytes_eq part name.now) (slice_split is_blank names.now) }
{
    names.split(|byte| is_blank(*byte)).any(|part| part == name)
}
