//! What a gate lets through of the bytes.

/// What a gate lets through of the bytes that are released through it.
#[derive(Debug, Clone, Copy, PartialEq, Eq, Drop)]
pub enum Filter {
    /// All bytes.
    All,
    /// Their number, as four bytes of which the low one is first.
    Length,
    /// The first of them, at most so many.
    First(u32),
}
