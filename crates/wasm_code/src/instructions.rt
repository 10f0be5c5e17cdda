//! Instructions that hold no instructions.

ghost use Rattle.std.specs.Prelude.{◌≡◌, Ok};
ghost use Rattle.wasm_code.specs.Answers.{place, ReadsAs};
ghost use Rattle.wasm_code.specs.Opcodes as opcodes;
ghost use Rattle.wasm_code.specs.Reading as reading;

use crate::error::DecodeError;
use crate::indices::indices;
use crate::input::Input;
use std::alloc::Global;
use wasm_ast::{Indices, Instr};

/// The instruction whose opcode stands at `at`, from what is behind the opcode.
pub fn instruction<'a>(
    alloc: Global,
    opcode: u8,
    at: Input<'a>,
    after: Input<'a>,
) -> Result<(Instr, Input<'a>), DecodeError>
    ensures { ReadsAs (λ x. (x.0, place x.1)) result (reading.instruction (opcodes.kind_of opcode) (place at.entry) (place after.entry)) }
{
    match opcode {
        ..=0x24 => control(alloc, opcode, at, after),
        ..=0x40 => memory(opcode, at, after),
        0xfc => bulk(after),
        _ => numeric(opcode, at, after),
    }
}

/// Control, parametric and variable instructions.
fn control<'a>(
    alloc: Global,
    opcode: u8,
    at: Input<'a>,
    after: Input<'a>,
) -> Result<(Instr, Input<'a>), DecodeError>
    ensures { ReadsAs (λ x. (x.0, place x.1)) result (reading.instruction (opcodes.control opcode) (place at.entry) (place after.entry)) }
{
    macro_rules! index {
        ($made:ident) => {{
            let (index, after) = after.u32()?;
            Ok((Instr::$made(index), after))
        }};
    }
    match opcode {
        0x00 => Ok((Instr::Unreachable, after)),
        0x01 => Ok((Instr::Nop, after)),
        0x0c => index!(Br),
        0x0d => index!(BrIf),
        0x0e => {
            let (labels, after) = indices(alloc, after)?;
            let (last, after) = after.u32()?;
            Ok((Instr::BrTable(Indices::new(labels), last), after))
        }
        0x0f => Ok((Instr::Return, after)),
        0x10 => index!(Call),
        0x11 => {
            let (index, after) = after.u32()?;
            let after = after.tag(0x00)?;
            Ok((Instr::CallIndirect(index), after))
        }
        0x1a => Ok((Instr::Drop, after)),
        0x1b => Ok((Instr::Select, after)),
        0x20 => index!(LocalGet),
        0x21 => index!(LocalSet),
        0x22 => index!(LocalTee),
        0x23 => index!(GlobalGet),
        0x24 => index!(GlobalSet),
        _ => Err(DecodeError::Malformed(at.at)),
    }
}

/// Loads, stores, and the memory's size.
fn memory<'a>(
    opcode: u8,
    at: Input<'a>,
    after: Input<'a>,
) -> Result<(Instr, Input<'a>), DecodeError>
    ensures { ReadsAs (λ x. (x.0, place x.1)) result (reading.instruction (opcodes.memory opcode) (place at.entry) (place after.entry)) }
{
    macro_rules! access {
        ($made:ident) => {{
            let (align, after) = after.u32()?;
            let (offset, after) = after.u32()?;
            Ok((Instr::$made(opcode, align, offset), after))
        }};
    }
    match opcode {
        0x28..=0x29 | 0x2c..=0x35 => access!(Load),
        0x36..=0x37 | 0x3a..=0x3e => access!(Store),
        0x2a..=0x2b | 0x38..=0x39 => access!(FloatMemory),
        0x3f => Ok((Instr::MemorySize, after.tag(0x00)?)),
        0x40 => Ok((Instr::MemoryGrow, after.tag(0x00)?)),
        _ => Err(DecodeError::Malformed(at.at)),
    }
}

/// Constants and operators.
fn numeric<'a>(
    opcode: u8,
    at: Input<'a>,
    after: Input<'a>,
) -> Result<(Instr, Input<'a>), DecodeError>
    ensures { ReadsAs (λ x. (x.0, place x.1)) result (reading.instruction (opcodes.numeric opcode) (place at.entry) (place after.entry)) }
{
    macro_rules! constant {
        ($read:ident, $made:ident) => {{
            let (value, after) = after.$read()?;
            Ok((Instr::$made(value), after))
        }};
    }
    match opcode {
        0x41 => constant!(s32, I32Const),
        0x42 => constant!(s64, I64Const),
        0x43 => constant!(bits32, F32Const),
        0x44 => constant!(bits64, F64Const),
        0x45..=0x5a | 0x67..=0x8a | 0xa7 | 0xac..=0xad | 0xc0..=0xc4 => {
            Ok((Instr::Num(opcode), after))
        }
        0x5b..=0x66 | 0x8b..=0xa6 | 0xa8..=0xab | 0xae..=0xbf => {
            Ok((Instr::FloatOp(opcode), after))
        }
        _ => Err(DecodeError::Malformed(at.at)),
    }
}

/// `memory.copy` and `memory.fill`, by the integer behind their opcode.
fn bulk(input: Input) -> Result<(Instr, Input), DecodeError>
    ensures { ReadsAs (λ x. (x.0, place x.1)) result (reading.immediates opcodes.Bulk (place input.entry)) }
{
    let (which, after) = input.u32()?;
    match which {
        10 => {
            let after = after.tag(0x00)?;
            Ok((Instr::MemoryCopy, after.tag(0x00)?))
        }
        11 => Ok((Instr::MemoryFill, after.tag(0x00)?)),
        _ => Err(DecodeError::Malformed(input.at)),
    }
}
