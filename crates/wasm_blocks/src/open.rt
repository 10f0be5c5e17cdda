//! Open blocks by numbers.

/// An open block, by numbers alone, from which its code is found again.
#[derive(Clone, Copy, Debug)]
pub struct Open {
    /// How many instructions a branch to it goes on with: those behind the block, and before them a loop itself.
    pub left: usize,
    /// How many operands of its frame lie below its own.
    pub height: usize,
    /// Whether it is the second part of an `if`.
    pub second: bool,
    /// Whether it is a loop.
    pub loops: bool,
    /// Whether a branch to it keeps an operand.
    pub keeps: bool,
}
