//! Why an access is refused.

/// A range that does not end inside the memory.
#[derive(Clone, Copy, Debug, PartialEq, Eq)]
pub struct OutOfBounds;

/// Why a write is refused.
#[derive(Clone, Copy, Debug, PartialEq, Eq)]
pub enum StoreError {
    /// The range does not end inside the memory.
    Bounds,
    /// Out of memory.
    NoMemory,
}
