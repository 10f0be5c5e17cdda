//! Data segments.

ghost use Rattle.std.specs.Prelude.{◌≡◌};

use crate::octets::Octets;
use crate::trees::Seq;

/// A data segment: the memory that it fills, the expression of the first address, and the bytes. WebAssembly 1.0, 2.5.8.
#[derive(Debug, Drop)]
pub struct Piece {
    pub index: u32,
    pub offset: Seq,
    pub bytes: Octets,
}

impl Piece {
    pub fn new(index: u32, offset: Seq, bytes: Octets) -> Piece
        ensures { result ≡ record { index = index; offset = offset; bytes = bytes } }
    {
        Piece {
            index,
            offset,
            bytes,
        }
    }

    pub fn index(&self) -> u32
        ensures { result ≡ self.now.index }
    {
        self.index
    }

    pub fn offset(&self) -> &Seq
        ensures { result.now ≡ self.now.offset }
    {
        &self.offset
    }

    pub fn bytes(&self) -> &Octets
        ensures { result.now ≡ self.now.bytes }
    {
        &self.bytes
    }
}
