//! A label by its number.

ghost use Rattle.std.specs.Prelude.{◌≡◌};

/// A label of a lattice, by its position among the names, from 0.
#[derive(Debug, Clone, Copy, PartialEq, Eq, PartialOrd, Ord, Drop)]
pub struct Label {
    /// The position.
    pub number: u8,
}

impl Label {
    /// The label with this number.
    pub fn numbered(number: u8) -> Label
        ensures { result.number ≡ number }
    {
        Label { number }
    }

    /// The label's number.
    pub fn number(self) -> u8
        ensures { result ≡ self.number }
    {
        self.number
    }
}
