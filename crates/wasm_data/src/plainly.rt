//! Instructions that move data and leave the memory alone.

ghost use Rattle.std.specs.Prelude.{length};
ghost use Rattle.wasm_ast.specs.Trees.{layer};
ghost use Rattle.wasm_data.specs.Effects.{CarriesGlobals};
ghost use Rattle.wasm_data.specs.Marked.{AreInArray};
ghost use Rattle.wasm_data.specs.Rules.{HasRule, IsPlain};

use crate::marks::Marks;
use crate::moved::Moved;
use crate::opcodes::number;
use crate::places::{
    discard, global_get, global_set, local_get, local_set, local_tee, push, select,
};
use wasm_ast::Instr;

/// Carries out an instruction that moves data and leaves the memory alone.
#[inline(always)]
pub(crate) fn plain(globals: &mut [u64], values: &mut [u64], marks: Marks, instr: &Instr) -> Moved
    requires within { AreInArray marks (length values.old) }
    requires plain { IsPlain (layer instr.now) }
    requires ruled { HasRule (layer instr.now) globals.old values.old marks }
    ensures { CarriesGlobals (layer instr.now) globals.old globals.new values.old values.new marks result }
{
    match instr {
        Instr::Nop => Moved::Goes(marks.sp),
        Instr::Drop => discard(values, marks),
        Instr::Select => select(values, marks),
        Instr::LocalGet(index) => local_get(values, marks, *index as usize),
        Instr::LocalSet(index) => local_set(values, marks, *index as usize),
        Instr::LocalTee(index) => local_tee(values, marks, *index as usize),
        Instr::GlobalGet(index) => global_get(globals, values, marks, *index as usize),
        Instr::GlobalSet(index) => global_set(globals, values, marks, *index as usize),
        Instr::I32Const(value) => push(values, marks, *value as u64),
        Instr::I64Const(value) => push(values, marks, *value),
        Instr::Num(code) => number(values, marks, *code),
        Instr::Unreachable
        | Instr::Block(..)
        | Instr::Loop(..)
        | Instr::If(..)
        | Instr::Br(_)
        | Instr::BrIf(_)
        | Instr::BrTable(..)
        | Instr::Return
        | Instr::Call(_)
        | Instr::CallIndirect(_)
        | Instr::Load(..)
        | Instr::Store(..)
        | Instr::MemorySize
        | Instr::MemoryGrow
        | Instr::MemoryCopy
        | Instr::MemoryFill
        | Instr::FloatMemory(..)
        | Instr::F32Const(_)
        | Instr::F64Const(_)
        | Instr::FloatOp(_) => unreachable!(),
    }
}
