//! All instructions that move data.

ghost use Rattle.std.specs.Prelude.{◌≡◌, ◌≢◌, length};
ghost use Rattle.wasm_ast.specs.Trees.{layer};
ghost use Rattle.wasm_ast.specs.Spaces.{page_limit};
ghost use Rattle.wasm_semantics.specs.Data.{Wrong, effect_of};
ghost use Rattle.wasm_semantics.specs.Operands.{operand_types, LieOnTop};
ghost use Rattle.wasm_data.specs.Effects.{Does, cells, seen};
ghost use Rattle.wasm_data.specs.Marked.{AreInArray, operands_in};

use crate::marks::Marks;
use crate::memories::{copy, fill, grow, load, size, store};
use crate::moved::Moved;
use crate::plainly::plain;
use wasm_ast::{Instr, Module};
use wasm_memory::Memory;

/// Carries out an instruction that moves data, where a memory may have so many pages.
#[inline(always)]
pub fn data(
    program: &Module,
    pages: u32,
    memory: &mut Memory,
    globals: &mut [u64],
    values: &mut [u64],
    marks: Marks,
    instr: &Instr,
) -> Moved
    requires within { AreInArray marks (length values.old) }
    requires maximum { page_limit program.now ≡ memory.old.maximum }
    requires typed { effect_of program.now pages (layer instr.now) (seen (cells memory.old.bytes globals.old values.old) marks) ≢ Wrong }
    requires fits { LieOnTop (operand_types program.now (layer instr.now)) (operands_in marks.floor marks.sp values.old) }
    ensures maximum { memory.new.maximum ≡ memory.old.maximum }
    ensures does { let before = cells memory.old.bytes globals.old values.old in
        let after = cells memory.new.bytes globals.new values.new in
        Does (effect_of program.now pages (layer instr.now) (seen before marks)) before after marks result }
{
    match instr {
        Instr::Load(code, align, offset) => load(memory, values, marks, *code, *align, *offset),
        Instr::Store(code, align, offset) => store(memory, values, marks, *code, *align, *offset),
        Instr::MemorySize => size(memory, values, marks),
        Instr::MemoryGrow => grow(pages, memory, values, marks),
        Instr::MemoryCopy => copy(memory, values, marks),
        Instr::MemoryFill => fill(memory, values, marks),
        Instr::Nop
        | Instr::Drop
        | Instr::Select
        | Instr::LocalGet(_)
        | Instr::LocalSet(_)
        | Instr::LocalTee(_)
        | Instr::GlobalGet(_)
        | Instr::GlobalSet(_)
        | Instr::I32Const(_)
        | Instr::I64Const(_)
        | Instr::Num(_) => plain(globals, values, marks, instr),
        Instr::Unreachable
        | Instr::Block(..)
        | Instr::Loop(..)
        | Instr::If(..)
        | Instr::Br(_)
        | Instr::BrIf(_)
        | Instr::BrTable(..)
        | Instr::Return
        | Instr::Call(_)
        | Instr::CallIndirect(_)
        | Instr::FloatMemory(..)
        | Instr::F32Const(_)
        | Instr::F64Const(_)
        | Instr::FloatOp(_) => unreachable!(),
    }
}
