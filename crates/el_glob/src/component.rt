//! One component of a pattern, and which names fit it.
ghost use Rattle.std.specs.Prelude.{◌≡◌, [], ◌∷◌, Some, IfOk, IfErr, IsTrue, ◌↔◌};
ghost use Rattle.el_glob.specs.Fits.{Fits, is_hidden, begin_with_dot};
ghost use Rattle.el_glob.specs.Fits.{fits};
ghost use Rattle.el_glob.specs.Reading.{pieces_of, IsFaultOf};

use crate::fault::PatternFault;
use crate::matching::matches;
use crate::piece::Piece;
use crate::reader::Reader;
use std::alloc::Global;
use std::marker::Model;

/// A component of a pattern. A contract sees its pieces.
#[derive(Drop)]
pub struct Component {
    pieces: Vec<Piece>,
}

impl Model for Component {
    ghost use Rattle.std.specs.Prelude.{List};
    ghost use Rattle.std.specs.Coded.{codes};
    ghost use Rattle.el_glob.specs.declared.piece.Piece.{Piece};
    ghost use Rattle.el_glob.specs.contracts.piece.Piece as piece;

    ghost Value = { List Piece };

    ghost coded = { Prim.hlevel (codes, piece.the_row.coded) };

    ghost view = { λ c. c.pieces.items };
}

impl Component {
    /// The component that a text without `/` writes, refused as `Bad` exactly where it writes none.
    pub fn read(alloc: Global, text: &[u8]) -> Result<Component, PatternFault>
        ensures ok { IfOk result (λ component. pieces_of text.now ≡ Some component) }
        ensures err { IfErr result (IsFaultOf (pieces_of text.now)) }
    {
        let mut pieces = Vec::new(alloc);
        let mut reader = Reader { rest: text };
        while let Some(byte) = reader.next() {
            pieces.push(reader.piece(alloc, byte)?)?;
        }
        Ok(Component { pieces })
    }

    /// Whether a name fits.
    pub fn fits(&self, name: &[u8]) -> bool
        ensures fits { IsTrue result ↔ Fits self.now name.now }
        ensures value { result ≡ fits self.now name.now }
    {
        if is_hidden(name) && !begin_with_dot(&self.pieces) {
            return false;
        }
        matches(&self.pieces, name)
    }
}

/// Whether a name begins with `.`.
fn is_hidden(name: &[u8]) -> bool
    ensures { result ≡ is_hidden name.now }
{
    !name.is_empty() && name[0] == b'.'
}

/// Whether pieces begin with the byte `.`.
fn begin_with_dot(pieces: &[Piece]) -> bool
    ensures { result ≡ begin_with_dot pieces.now }
{
    !pieces.is_empty() && is_dot(&pieces[0])
}

/// Whether a piece is the byte `.`.
fn is_dot(piece: &Piece) -> bool
    ensures { result ≡ begin_with_dot (piece.now ∷ []) }
{
    match piece {
        Piece::Byte(byte) => *byte == b'.',
        _ => false,
    }
}
