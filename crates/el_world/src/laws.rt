//! Laws over the definitions: which numbers stand in them.
ghost use Rattle.std.specs.Prelude.{◌≡◌};

use crate::MAX_PIECE;

/// The greatest number of bytes of one read.
pub fn numbers_are_these()
    ensures { MAX_PIECE ≡ 4096 }
{}
