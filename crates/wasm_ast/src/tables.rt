//! Limits of a table.

ghost use Rattle.std.specs.Prelude.{◌≡◌};

/// A table: its least number of entries, and its greatest, if it has one. WebAssembly 1.0, 2.3.6.
#[derive(Clone, Copy, Debug, PartialEq, Eq)]
pub struct Table {
    pub minimum: u32,
    pub maximum: Option<u32>,
}

impl Table {
    pub fn new(minimum: u32, maximum: Option<u32>) -> Table
        ensures { result ≡ record { minimum = minimum; maximum = maximum } }
    {
        Table { minimum, maximum }
    }

    pub fn minimum(&self) -> u32
        ensures { result ≡ self.now.minimum }
    {
        self.minimum
    }

    pub fn maximum(&self) -> Option<u32>
        ensures { result ≡ self.now.maximum }
    {
        self.maximum
    }
}
