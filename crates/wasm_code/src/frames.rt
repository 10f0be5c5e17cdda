//! Blocks that are open while instructions are read.

use sqlite_items::Items;
use wasm_ast::{BlockType, Instr, Seq};

/// What opened a block.
#[derive(Debug, Drop)]
pub enum Opened {
    Block(BlockType),
    Loop(BlockType),
    If(BlockType),
    /// The second part of an `if`, with the first.
    Else(BlockType, Seq),
}

/// A block that is open, with the instructions that stand before it in the sequence around it.
#[derive(Debug, Drop)]
pub struct Frame {
    pub opened: Opened,
    pub items: Items<Instr>,
}
