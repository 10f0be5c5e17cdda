//! Lists of indices.

ghost use Rattle.std.specs.Prelude.{◌≡◌};

use std::marker::Model;

/// A list of indices: of labels in a `br_table`, or of functions in an element segment.
#[derive(Debug, Drop)]
pub struct Indices {
    items: Vec<u32>,
}

impl Model for Indices {
    ghost use Rattle.std.specs.Prelude.{List, ℕ};

    ghost Value = { List ℕ };

    ghost view = { λ i. i.items.items };
}

impl Indices {
    pub fn new(items: Vec<u32>) -> Indices
        ensures { result ≡ items.items }
    {
        Indices { items }
    }

    pub fn items(&self) -> &[u32]
        ensures { result.now ≡ self.now }
    {
        self.items.as_slice()
    }
}
