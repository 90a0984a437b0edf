//! All choices of the pieces of a word, joined.
ghost use Rattle.std.specs.Prelude.{◌≡◌, ◌<◌, OnOk};
ghost use Rattle.el_words.specs.Word.{HasNul};
ghost use Rattle.el_subst.specs.Values.{products};
ghost use Rattle.el_subst.specs.Pieces.{choices_of};
ghost use Rattle.el_subst.specs.Places.{count_of, product_at};
ghost use Rattle.el_subst.specs.Sizes.{capped, HasRoom, Puts};

use crate::piece::Piece;
use el_words::{NoMemory, Room};
use std::alloc::Global;

/// Puts the products of the pieces last: each way to take one choice of each, joined, the leftmost
/// varying slowest. There must be room for all of them.
pub fn put_products(alloc: Global, pieces: &[Piece], room: &mut Room) -> Result<(), NoMemory>
    requires { HasRoom room.old (products (choices_of pieces.now)) }
    ensures { OnOk result (Puts room.old room.new (products (choices_of pieces.now))) }
{
    let total = count(pieces);
    let mut buffer = Vec::new(alloc);
    for place in 0..total {
        make_product(pieces, total, place, &mut buffer)?;
        room.push(&buffer);
    }
    Ok(())
}

// How many products there are, or the greatest number where there are more.
fn count(pieces: &[Piece]) -> usize
    ensures { result ≡ capped (count_of (choices_of pieces.now)) }
{
    let mut total = 1usize;
    for piece in pieces {
        total = total.saturating_mul(piece.len());
    }
    total
}

// Makes the product at `place`, of `total` in all, in the buffer, whatever this holds before.
fn make_product(
    pieces: &[Piece],
    total: usize,
    place: usize,
    buffer: &mut Vec<u8>,
) -> Result<(), NoMemory>
    requires all { total ≡ count_of (choices_of pieces.now) }
    requires within { place < total }
    ensures same { OnOk result (buffer.new.items ≡ product_at (choices_of pieces.now) place) }
    ensures no_nul { OnOk result (HasNul buffer.new.items → ⊥) }
{
    let mut stride = total;
    let mut left = place;
    buffer.clear();
    for piece in pieces {
        stride /= piece.len();
        let text = piece.choice(left / stride);
        buffer.extend_from_slice(text)?;
        left %= stride;
    }
    Ok(())
}
