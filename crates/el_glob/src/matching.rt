//! Matching a name with pieces, linear in the name for each star.
ghost use Rattle.std.specs.Prelude.{◌≡◌, ◌≤◌, true, length, drop};
ghost use Rattle.el_glob.specs.Matching.{matches};
ghost use Rattle.el_glob.specs.Ahead.{begin_with_star, begin_alike};

use crate::piece::Piece;

/// Where matching stood behind the last `*`: at this piece, and at this byte.
#[derive(Clone, Copy)]
struct Tried {
    piece: usize,
    byte: usize,
}

/// Whether the pieces, one after the other, stand for the bytes.
// Only the last `*` is tried again with more bytes: what an earlier one could reach by more bytes, it reaches too.
pub(crate) fn matches(pieces: &[Piece], bytes: &[u8]) -> bool
    ensures { result ≡ matches pieces.now bytes.now }
{
    if !may_end(pieces, bytes) {
        return false;
    }
    let mut piece = 0;
    let mut byte = 0;
    let mut last: Option<Tried> = None;
    while piece < pieces.len() || byte < bytes.len() {
        if is_at_star(pieces, piece) {
            piece += 1;
            last = Some(Tried { piece, byte });
        } else if are_alike(pieces, piece, bytes, byte) {
            piece += 1;
            byte += 1;
        } else {
            let Some(tried) = last else {
                return false;
            };
            if tried.byte == bytes.len() {
                return false;
            }
            piece = tried.piece;
            byte = tried.byte + 1;
            last = Some(Tried { piece, byte });
        }
    }
    true
}

/// Whether the last piece may stand for the last byte, by which most names are told.
fn may_end(pieces: &[Piece], bytes: &[u8]) -> bool
    ensures { matches pieces.now bytes.now ≡ true → result ≡ true }
{
    match (pieces.last(), bytes.last()) {
        (Some(piece), Some(byte)) => piece.is_star() || piece.stands_for(*byte),
        _ => true,
    }
}

/// Whether the next piece is a `*`.
fn is_at_star(pieces: &[Piece], piece: usize) -> bool
    ensures { result ≡ begin_with_star (drop piece pieces.now) }
{
    piece < pieces.len() && pieces[piece].is_star()
}

/// Whether the next piece stands for the next byte.
fn are_alike(pieces: &[Piece], piece: usize, bytes: &[u8], byte: usize) -> bool
    ensures { result ≡ begin_alike (drop piece pieces.now) (drop byte bytes.now) }
{
    piece < pieces.len() && byte < bytes.len() && pieces[piece].stands_for(bytes[byte])
}
