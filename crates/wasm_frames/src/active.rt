//! The frame that runs, and those below it.

use wasm_blocks::Hot;
use wasm_data::Marks;

/// A frame that waits for the one above it, by numbers alone, from which it is found again.
#[derive(Clone, Copy, Debug)]
pub struct Place {
    /// Where it lies in the array of values.
    pub marks: Marks,
    /// How many instructions remain in its innermost block.
    pub left: usize,
    /// How many blocks of other frames lie below its own.
    pub low: usize,
    /// The number of its function among those that the module defines.
    pub function: usize,
    /// Whether it gives a result.
    pub gives: bool,
}

/// The frame that runs.
#[derive(Clone, Copy)]
pub struct Active<'m> {
    /// What a run keeps at hand of it.
    pub hot: Hot<'m>,
    /// The number of its function among those that the module defines.
    pub function: usize,
    /// Whether it gives a result.
    pub gives: bool,
}
