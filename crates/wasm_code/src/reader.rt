//! Expressions, an opcode at a time, with the blocks that are open on a stack.

ghost use Rattle.std.specs.Prelude.{◌≡◌, [], ◌∷◌, ◌++◌, OnOk, Ok};
ghost use Rattle.wasm_code.specs.Answers.{place, ReadsAs, state, ReadsOn, ReadsOnOrEnds};
ghost use Rattle.wasm_code.specs.Reading as reading;

use crate::error::DecodeError;
use crate::frames::{Frame, Opened};
use crate::input::Input;
use crate::instructions::instruction;
use sqlite_items::Items;
use std::alloc::{AllocError, Global};
use std::mem;
use wasm_ast::{BlockType, Instr, Seq, ValType};
use wasm_stack::Stack;

/// An expression that is being read: the open blocks, the instructions so far of the innermost, and what is left.
#[derive(Drop)]
pub struct Reader<'a> {
    pub alloc: Global,
    pub frames: Stack<Frame>,
    pub items: Items<Instr>,
    pub input: Input<'a>,
}

/// The expression that begins here, and what is behind it.
///
/// # Errors
///
/// The first fault, or out of memory.
pub fn expr(alloc: Global, input: Input) -> Result<(Seq, Input), DecodeError>
    ensures { ReadsAs (λ x. (x.0.items, place x.1)) result (reading.expr (place input.entry)) }
{
    let mut reader = Reader {
        alloc,
        frames: Stack::new(alloc),
        items: Items::new(alloc),
        input,
    };
    'opcodes: loop {
        if reader.step()? {
            let Reader { items, input, .. } = reader;
            return Ok((Seq { items }, input));
        }
    }
}

/// The type of a block: a byte.
#[tactic(auto, unfolding(crate::specs::Reading::block_type))]
fn block_type(input: Input) -> Result<(BlockType, Input), DecodeError>
    ensures { ReadsAs (λ x. (x.0, place x.1)) result (reading.block_type (place input.entry)) }
{
    let (first, after) = input.byte()?;
    let block_type = match first {
        0x40 => None,
        0x7f => Some(ValType::I32),
        0x7e => Some(ValType::I64),
        0x7d => Some(ValType::F32),
        0x7c => Some(ValType::F64),
        _ => return Err(DecodeError::Malformed(input.at)),
    };
    Ok((block_type, after))
}

/// The instruction of a block that ends.
fn close(alloc: Global, opened: Opened, items: Items<Instr>) -> Instr
    ensures { result ≡ reading.close opened items }
{
    let body = Seq { items };
    match opened {
        Opened::Block(block_type) => Instr::Block(block_type, body),
        Opened::Loop(block_type) => Instr::Loop(block_type, body),
        Opened::If(block_type) => {
            let second = Seq {
                items: Items::new(alloc),
            };
            Instr::If(block_type, body, second)
        }
        Opened::Else(block_type, first) => Instr::If(block_type, first, body),
    }
}

impl<'a> Reader<'a> {
    /// One opcode, with its immediates. Tells whether it ended the expression.
    #[tactic(auto, unfolding(crate::specs::Reading::step))]
    fn step(&mut self) -> Result<bool, DecodeError>
        ensures { ReadsOnOrEnds (reading.step self.old.frames self.old.items (place self.old.input)) self.new result }
    {
        let at = self.input;
        let (opcode, after) = at.byte()?;
        match opcode {
            0x02 => {
                self.room(at)?;
                let (block_type, after) = block_type(after)?;
                self.enter(Opened::Block(block_type), after)?;
            }
            0x03 => {
                self.room(at)?;
                let (block_type, after) = block_type(after)?;
                self.enter(Opened::Loop(block_type), after)?;
            }
            0x04 => {
                self.room(at)?;
                let (block_type, after) = block_type(after)?;
                self.enter(Opened::If(block_type), after)?;
            }
            0x05 => self.otherwise(at, after)?,
            0x0b => return self.end(after),
            _ => {
                let (instr, after) = instruction(self.alloc, opcode, at, after)?;
                self.push(instr, after)?;
            }
        }
        Ok(false)
    }

    /// An instruction that holds none.
    fn push(&mut self, instr: Instr, after: Input<'a>) -> Result<(), AllocError>
        ensures { OnOk result (state self.new ≡ reading.More self.old.frames (self.old.items ++ instr ∷ []) (place after.entry)) }
    {
        self.items.push(instr)?;
        self.input = after;
        Ok(())
    }

    /// At most 512 blocks are open inside one another.
    fn room(&self, opcode: Input) -> Result<(), DecodeError>
        ensures { ReadsAs (λ x. x) result (reading.room self.now.frames (place opcode.entry)) }
    {
        if self.frames.len() >= 512 {
            return Err(DecodeError::TooDeep(opcode.at));
        }
        Ok(())
    }

    /// Opens a block.
    fn enter(&mut self, opened: Opened, after: Input<'a>) -> Result<(), AllocError>
        ensures { OnOk result (state self.new ≡ reading.entered opened self.old.frames self.old.items (place after.entry)) }
    {
        let items = mem::replace(&mut self.items, Items::new(self.alloc));
        self.frames.push(Frame { opened, items })?;
        self.input = after;
        Ok(())
    }

    /// Begins the second part of an `if` that had none.
    fn otherwise(&mut self, opcode: Input, after: Input<'a>) -> Result<(), DecodeError>
        ensures { ReadsOn (reading.otherwise self.old.frames self.old.items (place opcode.entry) (place after.entry)) self.new result }
    {
        let Some(Frame { opened, items }) = self.frames.pop() else {
            return Err(DecodeError::Malformed(opcode.at));
        };
        let Opened::If(block_type) = opened else {
            return Err(DecodeError::Malformed(opcode.at));
        };
        let first = mem::replace(&mut self.items, Items::new(self.alloc));
        let opened = Opened::Else(block_type, Seq { items: first });
        self.frames.push(Frame { opened, items })?;
        self.input = after;
        Ok(())
    }

    /// Ends the innermost block, or the expression. Tells whether it was the expression.
    fn end(&mut self, after: Input<'a>) -> Result<bool, DecodeError>
        ensures { ReadsOnOrEnds (Ok (reading.end self.old.frames self.old.items (place after.entry))) self.new result }
    {
        self.input = after;
        let Some(Frame { opened, items }) = self.frames.pop() else {
            return Ok(true);
        };
        let body = mem::replace(&mut self.items, items);
        self.items.push(close(self.alloc, opened, body))?;
        Ok(false)
    }
}
