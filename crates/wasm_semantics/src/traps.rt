//! Traps.

/// Why a thread ends before its code does. WebAssembly 1.0, 4.4.
#[derive(Clone, Copy, Debug, PartialEq, Eq)]
pub enum Trap {
    /// The instruction `unreachable`.
    Unreachable,
    /// A load, a store, a copy or a fill past the end of the memory.
    Memory,
    /// A division by 0.
    Divide,
    /// A quotient that its type cannot hold.
    Overflow,
    /// An index past the end of the table.
    Table,
    /// An entry of the table that is not set.
    Empty,
    /// A function of another type than the call names.
    TypeDiffers,
    /// More than 65,536 values, 1,024 frames or 16,384 open blocks.
    Stack,
}
