//! Where a module speaks of floats.

ghost use Rattle.std.specs.Prelude.{◌≡◌, ◌<◌, ◌^◌, length, option_map, position, IfSome};
ghost use Rattle.wasm_ast.specs.declared.elements.Element.{Element};
ghost use Rattle.wasm_ast.specs.declared.pieces.Piece.{Piece};
ghost use Rattle.std.specs.List.{list_any};
ghost use Rattle.wasm_ast.specs.Floats.{is_float, is_float_block, is_float_instr};
ghost use Rattle.wasm_ast.specs.Floats.{has_float_code, has_float_type, has_float_global, has_float_body};
ghost use Rattle.wasm_ast.specs.Validity.{float_place};

use wasm_ast::{BlockType, Body, FloatPlace, FuncType, GlobalVar, Instr, Module, ValType};

/// Whether the type is one of floats.
fn is_float_type(val_type: ValType) -> bool
    ensures { result ≡ is_float val_type }
{
    match val_type {
        ValType::I32 => false,
        ValType::I64 => false,
        ValType::F32 => true,
        ValType::F64 => true,
    }
}

/// Whether a block leaves a float.
fn leaves_float(block_type: BlockType) -> bool
    ensures { result ≡ is_float_block block_type }
{
    match block_type {
        Some(val_type) => is_float_type(val_type),
        None => false,
    }
}

/// Whether one of these is a float.
fn any_float(types: &[ValType]) -> bool
    ensures { result ≡ list_any is_float types.now }
{
    types.iter().any(|val_type| is_float_type(*val_type))
}

/// Whether an instruction of the list, or one within it, is of floats.
#[cycle(floats)]
fn code_has_float(code: &[Instr]) -> bool
    ensures { result ≡ has_float_code code.now }
{
    for instr in code {
        if instr_has_float(instr) {
            return true;
        }
    }
    false
}

/// The same of one instruction.
#[cycle(floats)]
fn instr_has_float(instr: &Instr) -> bool
    ensures { result ≡ is_float_instr instr.now }
{
    match instr {
        Instr::Block(block_type, body) => {
            if leaves_float(*block_type) {
                return true;
            }
            code_has_float(body.items())
        }
        Instr::Loop(block_type, body) => {
            if leaves_float(*block_type) {
                return true;
            }
            code_has_float(body.items())
        }
        Instr::If(block_type, first, second) => {
            if leaves_float(*block_type) {
                return true;
            }
            if code_has_float(first.items()) {
                return true;
            }
            code_has_float(second.items())
        }
        Instr::FloatMemory(_, _, _) => true,
        Instr::F32Const(_) => true,
        Instr::F64Const(_) => true,
        Instr::FloatOp(_) => true,
        Instr::Unreachable => false,
        Instr::Nop => false,
        Instr::Br(_) => false,
        Instr::BrIf(_) => false,
        Instr::BrTable(_, _) => false,
        Instr::Return => false,
        Instr::Call(_) => false,
        Instr::CallIndirect(_) => false,
        Instr::Drop => false,
        Instr::Select => false,
        Instr::LocalGet(_) => false,
        Instr::LocalSet(_) => false,
        Instr::LocalTee(_) => false,
        Instr::GlobalGet(_) => false,
        Instr::GlobalSet(_) => false,
        Instr::Load(_, _, _) => false,
        Instr::Store(_, _, _) => false,
        Instr::MemorySize => false,
        Instr::MemoryGrow => false,
        Instr::MemoryCopy => false,
        Instr::MemoryFill => false,
        Instr::I32Const(_) => false,
        Instr::I64Const(_) => false,
        Instr::Num(_) => false,
    }
}

fn type_has_float(signature: &FuncType) -> bool
    ensures { result ≡ has_float_type signature.now }
{
    any_float(signature.params()) || any_float(signature.results())
}

fn global_has_float(global: &GlobalVar) -> bool
    ensures { result ≡ has_float_global global.now }
{
    is_float_type(global.val_type()) || code_has_float(global.initial().items())
}

fn body_has_float(body: &Body) -> bool
    ensures { result ≡ has_float_body body.now }
{
    any_float(body.locals()) || code_has_float(body.code().items())
}

fn float_type(module: &Module) -> Option<usize>
    ensures place { result ≡ position has_float_type module.now.types }
    ensures below { IfSome result (λ k. k < length module.now.types) }
{
    module.types().iter().position(|t| type_has_float(t))
}

fn float_global(module: &Module) -> Option<usize>
    ensures place { result ≡ position has_float_global module.now.globals }
    ensures below { IfSome result (λ k. k < length module.now.globals) }
{
    module.globals().iter().position(|t| global_has_float(t))
}

fn float_body(module: &Module) -> Option<usize>
    ensures place { result ≡ position has_float_body module.now.bodies }
    ensures below { IfSome result (λ k. k < length module.now.bodies) }
{
    module.bodies().iter().position(|t| body_has_float(t))
}

fn float_element(module: &Module) -> Option<usize>
    ensures place { result ≡ position (λ (e : Element). has_float_code e.offset.items) module.now.elements }
    ensures below { IfSome result (λ k. k < length module.now.elements) }
{
    module
        .elements()
        .iter()
        .position(|t| code_has_float(t.offset().items()))
}

fn float_piece(module: &Module) -> Option<usize>
    ensures place { result ≡ position (λ (p : Piece). has_float_code p.offset.items) module.now.pieces }
    ensures below { IfSome result (λ k. k < length module.now.pieces) }
{
    module
        .pieces()
        .iter()
        .position(|t| code_has_float(t.offset().items()))
}

/// The first place with a float.
pub fn find_float(module: &Module) -> Option<FloatPlace>
    requires types { length module.now.types < 2 ^ 32 }
    requires globals { length module.now.globals < 2 ^ 32 }
    requires bodies { length module.now.bodies < 2 ^ 32 }
    requires elements { length module.now.elements < 2 ^ 32 }
    requires pieces { length module.now.pieces < 2 ^ 32 }
    ensures { result ≡ float_place module.now }
{
    if let Some(k) = float_type(module) {
        return Some(FloatPlace::Types(k as u32));
    }
    if let Some(k) = float_global(module) {
        return Some(FloatPlace::Globals(k as u32));
    }
    if let Some(k) = float_body(module) {
        return Some(FloatPlace::Bodies(k as u32));
    }
    if let Some(k) = float_element(module) {
        return Some(FloatPlace::Elements(k as u32));
    }
    if let Some(k) = float_piece(module) {
        return Some(FloatPlace::Data(k as u32));
    }
    None
}
