//! Instructions, and sequences of them.

ghost use Rattle.std.specs.Prelude.{◌≡◌};

use crate::indices::Indices;
use crate::val_types::BlockType;
use sqlite_items::Items;

/// A sequence of instructions. WebAssembly 1.0, 2.4.
#[cycle(tree)]
#[derive(Debug, Drop)]
pub struct Seq {
    pub items: Items<Instr>,
}

/// An instruction. WebAssembly 1.0, 2.4 and 5.4.
///
/// A `u8` is the instruction's opcode. Loads and stores have the alignment's exponent and the offset behind it.
/// Constants are kept modulo 2^32 and 2^64, those of floats as their bits.
#[cycle(tree)]
#[derive(Debug, Drop)]
pub enum Instr {
    Unreachable,
    Nop,
    Block(BlockType, Seq),
    Loop(BlockType, Seq),
    /// The part for a condition other than 0, and the part for 0, which is empty where none is written.
    If(BlockType, Seq, Seq),
    Br(u32),
    BrIf(u32),
    /// The labels, and the one for an index past them.
    BrTable(Indices, u32),
    Return,
    Call(u32),
    /// The index of the type that the callee must have.
    CallIndirect(u32),
    Drop,
    Select,
    LocalGet(u32),
    LocalSet(u32),
    LocalTee(u32),
    GlobalGet(u32),
    GlobalSet(u32),
    Load(u8, u32, u32),
    Store(u8, u32, u32),
    MemorySize,
    MemoryGrow,
    /// Copies bytes within the memory. WebAssembly 2.0, 4.4.7.
    MemoryCopy,
    /// Fills a range of the memory with one byte. WebAssembly 2.0, 4.4.7.
    MemoryFill,
    I32Const(u32),
    I64Const(u64),
    /// An operator on integers, sign extension within a type included.
    Num(u8),
    /// A load or a store of a float.
    FloatMemory(u8, u32, u32),
    F32Const(u32),
    F64Const(u64),
    /// An operator that takes or gives a float.
    FloatOp(u8),
}

impl Seq {
    pub fn new(items: Vec<Instr>) -> Seq
        ensures { result.items ≡ items.items }
    {
        Seq {
            items: Items::from_vec(items),
        }
    }

    pub fn items(&self) -> &[Instr]
        ensures { result.now ≡ self.now.items }
    {
        self.items.as_slice()
    }
}
