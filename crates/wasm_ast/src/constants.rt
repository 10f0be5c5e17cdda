//! Expressions that are one constant, as initial values and offsets have to be.

ghost use Rattle.std.specs.Prelude.{◌≡◌, ◌<◌, ◌^◌, Some};
ghost use Rattle.wasm_ast.specs.Trees.{layer};
ghost use Rattle.wasm_ast.specs.Structure.{constant, constant_at, constant_value as value_of_code};

use crate::trees::Instr;
use crate::val_types::ValType;

/// The type and the value of an expression that is one constant of an integer type; None for any other. WebAssembly 1.0, 3.3.7.
pub fn constant_of(code: &[Instr]) -> Option<(ValType, u64)>
    ensures { result ≡ constant code.now }
{
    match code {
        [only] => constant_in(only),
        _ => None,
    }
}

/// The value of such an expression, and 0 for any other. WebAssembly 1.0, 4.4.8.
pub fn constant_value(code: &[Instr]) -> u64
    ensures { result ≡ value_of_code code.now }
{
    match constant_of(code) {
        Some((_, value)) => value,
        None => 0,
    }
}

fn i32_constant(value: u32) -> Option<(ValType, u64)>
    ensures value { result ≡ Some (ValType.I32, value) }
    ensures range { value < 2 ^ 32 }
{
    Some((ValType::I32, u64::from(value)))
}

fn i64_constant(value: u64) -> Option<(ValType, u64)>
    ensures value { result ≡ Some (ValType.I64, value) }
    ensures range { value < 2 ^ 64 }
{
    Some((ValType::I64, value))
}

fn constant_in(instr: &Instr) -> Option<(ValType, u64)>
    ensures { result ≡ constant_at (layer instr.now) }
{
    match instr {
        Instr::I32Const(value) => i32_constant(*value),
        Instr::I64Const(value) => i64_constant(*value),
        Instr::Unreachable => None,
        Instr::Nop => None,
        Instr::Block(_, _) => None,
        Instr::Loop(_, _) => None,
        Instr::If(_, _, _) => None,
        Instr::Br(_) => None,
        Instr::BrIf(_) => None,
        Instr::BrTable(_, _) => None,
        Instr::Return => None,
        Instr::Call(_) => None,
        Instr::CallIndirect(_) => None,
        Instr::Drop => None,
        Instr::Select => None,
        Instr::LocalGet(_) => None,
        Instr::LocalSet(_) => None,
        Instr::LocalTee(_) => None,
        Instr::GlobalGet(_) => None,
        Instr::GlobalSet(_) => None,
        Instr::Load(_, _, _) => None,
        Instr::Store(_, _, _) => None,
        Instr::MemorySize => None,
        Instr::MemoryGrow => None,
        Instr::MemoryCopy => None,
        Instr::MemoryFill => None,
        Instr::Num(_) => None,
        Instr::FloatMemory(_, _, _) => None,
        Instr::F32Const(_) => None,
        Instr::F64Const(_) => None,
        Instr::FloatOp(_) => None,
    }
}
