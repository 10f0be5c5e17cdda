//! The frame that runs.

use wasm_ast::Instr;
use wasm_data::Marks;

/// What a run keeps at hand of the frame that runs.
#[derive(Clone, Copy)]
pub struct Hot<'m> {
    /// The instructions that remain in its innermost block.
    pub code: &'m [Instr],
    /// Where it lies in the array of values.
    pub marks: Marks,
    /// How many blocks of other frames lie below its own.
    pub low: usize,
}
