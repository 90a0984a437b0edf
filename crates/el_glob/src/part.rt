//! What stands between two `/` of a pattern.
ghost use Rattle.std.specs.Prelude.{◌≡◌, Some, IfOk, IfErr};
ghost use Rattle.el_glob.specs.Patterns.{part_of, IsFaultOf};

use crate::component::Component;
use crate::fault::PatternFault;
use std::alloc::Global;

/// A part of a pattern, between two `/`.
#[derive(Drop)]
pub enum Part {
    /// `.`, which stands for itself.
    Dot,
    /// `..`, which stands for itself.
    DotDot,
    /// What names in a directory fit.
    Names(Component),
}

impl Part {
    /// The part that a text without `/` writes, refused as `Bad` exactly where it writes none.
    pub fn read(alloc: Global, text: &[u8]) -> Result<Part, PatternFault>
        ensures ok { IfOk result (λ part. part_of text.now ≡ Some part) }
        ensures err { IfErr result (IsFaultOf (part_of text.now)) }
    {
        if text.is_empty() {
            return Err(PatternFault::Bad);
        }
        if text == b".".as_slice() {
            return Ok(Part::Dot);
        }
        if text == b"..".as_slice() {
            return Ok(Part::DotDot);
        }
        Ok(Part::Names(Component::read(alloc, text)?))
    }
}
