//! Patterns, and how they are read.
ghost use Rattle.std.specs.Prelude.{◌≡◌, ◌==◌, Some, IfOk, map};
ghost use Rattle.std.specs.List.{slice_split};
ghost use Rattle.el_glob.specs.Patterns.{pattern_of, parts_of, IsRefusal};

use crate::fault::PatternFault;
use crate::part::Part;
use std::alloc::{AllocError, Global};
use std::marker::Model;

/// The greatest number of bytes of a pattern.
pub const MAX_PATTERN: usize = 4_096;

/// What paths are compared with. A contract sees what is written.
#[derive(Drop)]
pub struct Pattern {
    // Whether it begins with `/`.
    pub(crate) rooted: bool,
    // What stands between the other `/`.
    pub(crate) parts: Vec<Part>,
}

impl Model for Pattern {
    ghost use Rattle.std.specs.Coded.{codes};
    ghost use Rattle.el_glob.specs.Written.{Written};
    ghost use Rattle.el_glob.specs.contracts.part.Part as part;

    ghost Value = { Written };

    ghost coded = { Prim.hlevel (codes, part.the_row.coded) };

    ghost view = { λ p. record { rooted = p.rooted; parts = p.parts.items } };
}

impl Pattern {
    /// The pattern that a text writes, refused as `Bad` exactly where it writes none.
    pub fn read(alloc: Global, text: &[u8]) -> Result<Pattern, PatternFault>
        ensures ok { IfOk result (λ pattern. pattern_of text.now ≡ Some pattern) }
        ensures err { IsRefusal (pattern_of text.now) result }
    {
        if text.is_empty() || text.len() > MAX_PATTERN {
            return Err(PatternFault::Bad);
        }
        if text[0] == b'/' {
            return Ok(Pattern {
                rooted: true,
                parts: read_parts(alloc, &text[1..])?,
            });
        }
        Ok(Pattern {
            rooted: false,
            parts: read_parts(alloc, text)?,
        })
    }
}

/// The parts that a text writes.
fn read_parts(alloc: Global, text: &[u8]) -> Result<Vec<Part>, PatternFault>
    ensures ok { IfOk result (λ parts. parts_of (slice_split (λ byte. byte == 47) text.now) ≡ Some parts.items) }
    ensures err { IsRefusal (parts_of (slice_split (λ byte. byte == 47) text.now)) result }
{
    let texts = parted(alloc, text)?;
    let mut parts = Vec::new(alloc);
    for text in &texts {
        parts.push(Part::read(alloc, text)?)?;
    }
    Ok(parts)
}

/// A text parted at each `/`.
fn parted(alloc: Global, text: &[u8]) -> Result<Vec<&[u8]>, AllocError>
    ensures { IfOk result (λ texts. map (λ text. text.now) texts.items ≡ slice_split (λ byte. byte == 47) text.now) }
{
    text.split(|byte| *byte == b'/').collect(alloc)
}
