//! How a turn ended.

/// What became of the activation in its turn.
#[derive(Debug, Clone, Copy, PartialEq, Eq, Drop)]
pub enum Outcome {
    /// It is done.
    Ended,
    /// Its units were used, and it goes to the back of its list.
    Waits,
    /// It raised itself to another label.
    Raised,
    /// It was stopped.
    Trapped(Cause),
}

/// Why an activation was stopped.
#[derive(Debug, Clone, Copy, PartialEq, Eq, Drop)]
pub enum Cause {
    /// An `unreachable` instruction.
    Unreachable,
    /// A range outside the memory, of an instruction or of a host call.
    Memory,
    /// A division by 0.
    Divide,
    /// A quotient that is too large.
    Overflow,
    /// A place outside the table.
    Table,
    /// A place of the table that is not set.
    Empty,
    /// A function of another type in the table.
    TypeDiffers,
    /// Too many values, frames or open blocks.
    Stack,
    /// More pages of memory at the beginning than its label allows.
    Pages,
    /// All units that its label allows.
    Fuel,
    /// A range of a host call that is too long.
    Size,
    /// A name that no channel, label or gate has.
    Unknown,
}
