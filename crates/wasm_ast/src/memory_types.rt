//! Limits of a memory.

ghost use Rattle.std.specs.Prelude.{◌≡◌};

/// A memory: its least number of pages, and its greatest, if it has one. WebAssembly 1.0, 2.3.5.
#[derive(Clone, Copy, Debug, PartialEq, Eq)]
pub struct MemoryType {
    pub minimum: u32,
    pub maximum: Option<u32>,
}

impl MemoryType {
    pub fn new(minimum: u32, maximum: Option<u32>) -> MemoryType
        ensures { result ≡ record { minimum = minimum; maximum = maximum } }
    {
        MemoryType { minimum, maximum }
    }

    pub fn minimum(&self) -> u32
        ensures { result ≡ self.now.minimum }
    {
        self.minimum
    }

    pub fn maximum(&self) -> Option<u32>
        ensures { result ≡ self.now.maximum }
    {
        self.maximum
    }
}
