//! Element segments.

ghost use Rattle.std.specs.Prelude.{◌≡◌};

use crate::indices::Indices;
use crate::trees::Seq;

/// An element segment: the table that it fills, the expression of the first place, and the functions. WebAssembly 1.0, 2.5.7.
#[derive(Debug, Drop)]
pub struct Element {
    pub index: u32,
    pub offset: Seq,
    pub members: Indices,
}

impl Element {
    pub fn new(index: u32, offset: Seq, members: Indices) -> Element
        ensures { result ≡ record { index = index; offset = offset; members = members } }
    {
        Element {
            index,
            offset,
            members,
        }
    }

    pub fn index(&self) -> u32
        ensures { result ≡ self.now.index }
    {
        self.index
    }

    pub fn offset(&self) -> &Seq
        ensures { result.now ≡ self.now.offset }
    {
        &self.offset
    }

    pub fn members(&self) -> &Indices
        ensures { result.now ≡ self.now.members }
    {
        &self.members
    }
}
