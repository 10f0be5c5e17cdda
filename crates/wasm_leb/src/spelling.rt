ghost use Rattle.std.specs.Prelude.{◌≡◌, ◌≤◌, ◌<◌, [], ◌∷◌, ◌++◌, length};

use std::marker::Model;

/// The spelling of one integer: at most ten bytes, kept in place.
#[derive(Drop)]
pub struct Leb {
    bytes: [u8; 10],
    len: usize,
}

impl Model for Leb {
    ghost use Rattle.std.specs.Prelude.{ℕ, List, take, ◌≤◌};

    ghost Value = { List ℕ };

    ghost view = { λ leb. take leb.len leb.bytes };

    ghost invariant = { λ leb. leb.len ≤ 10 };
}

impl Leb {
    /// No byte yet.
    pub(crate) fn empty() -> Leb
        ensures { result ≡ [] }
    {
        Leb {
            bytes: [0; 10],
            len: 0,
        }
    }

    /// One more byte at the end.
    pub(crate) fn push(&mut self, byte: u8)
        requires { length self.old < 10 }
        ensures { self.new ≡ self.old ++ byte ∷ [] }
    {
        self.bytes[self.len] = byte;
        self.len += 1;
    }

    /// The bytes, in order.
    pub fn as_slice(&self) -> &[u8]
        ensures bytes { result.now ≡ self.now }
        ensures most { length self.now ≤ 10 }
    {
        &self.bytes[..self.len]
    }
}
