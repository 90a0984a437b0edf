//! What is written between two words.
ghost use Rattle.std.specs.Prelude.{◌≡◌, ◌++◌, OnOk};
ghost use Rattle.el_keep.specs.Rendered.{rendered};

use crate::distance::Distance;
use crate::seam::{Follow, Seam};
use el_words::{Bytes, NoMemory};

/// Puts last the comments of a script's `gap` and what stands around them in a layout.
pub(crate) fn put_gap(
    out: &mut Bytes,
    gap: &[u8],
    seam: Seam,
    follow: Follow,
) -> Result<(), NoMemory>
    ensures { OnOk result (out.new ≡ out.old ++ rendered seam follow gap.now) }
{
    let mut seam = seam;
    let mut distance = Distance::SameLine;
    let mut in_comment = false;
    for byte in gap {
        if in_comment && *byte != b'\n' {
            out.push(*byte)?;
        } else if !in_comment && *byte == b'#' {
            seam.put_lead(out, follow, distance)?;
            out.push(b'#')?;
            seam = seam.broken()?;
            distance = Distance::BehindComment;
            in_comment = true;
        } else {
            distance = distance.further(*byte);
            in_comment = false;
        }
    }
    seam.put_last(out, follow, distance)
}
