//! Answers of instructions that only move data.

use wasm_semantics::Trap;

/// What an instruction that only moves data came to.
#[derive(Clone, Copy, Debug)]
pub enum Moved {
    /// It was carried out, and the free places begin here.
    Goes(usize),
    /// It traps, and nothing has changed.
    Trapped(Trap),
    /// The array has no place for one operand more, and nothing has changed.
    Full,
    /// Out of memory, and nothing has changed.
    NoMemory,
}
