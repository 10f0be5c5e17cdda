//! The typing of the code of a body.

ghost use Rattle.std.specs.Prelude.{◌≡◌, ◌↔◌, ◌≤◌, [], ◌∷◌, length, IfOk, OnOk, IsTrue};
ghost use Rattle.wasm_ast.specs.Typing.{IsTyped, results};
ghost use Rattle.wasm_ast.specs.Spaces.{function_of};
ghost use Rattle.wasm_typing.specs.Scopes.{Stepped, TellsTyping, context_in, labels_of};

use crate::operands::Operands;
use crate::scopes::Scope;
use std::alloc::{AllocError, Global};
use wasm_ast::{BlockType, Body, FuncType, Instr, Module, NoMemory, ValType};
use wasm_stack::Stack;

/// Whether the code leaves what its block type says, from no operands.
#[cycle(check)]
pub fn check_code(
    alloc: Global,
    scope: Scope<'_>,
    labels: &mut Stack<BlockType>,
    code: &[Instr],
    leaves: BlockType,
) -> Result<bool, AllocError>
    ensures typed { TellsTyping (context_in scope.entry) (labels_of labels.old) code.now (results leaves) result }
    ensures same { OnOk result (labels.new ≡ labels.old) }
{
    let mut operands = Operands::new(alloc);
    for instr in code {
        if !check_instr(alloc, scope, labels, &mut operands, instr)? {
            return Ok(false);
        }
    }
    Ok(operands.are(leaves))
}

/// Whether the code of a block leaves what its block type says, where a branch to it takes `taken`.
#[cycle(check)]
fn check_block(
    alloc: Global,
    scope: Scope<'_>,
    labels: &mut Stack<BlockType>,
    taken: BlockType,
    code: &[Instr],
    leaves: BlockType,
) -> Result<bool, AllocError>
    ensures typed { TellsTyping (context_in scope.entry) (results taken ∷ labels_of labels.old) code.now (results leaves) result }
    ensures same { OnOk result (labels.new ≡ labels.old) }
{
    labels.push(taken)?;
    let typed = check_code(alloc, scope, labels, code, leaves)?;
    labels.pop();
    Ok(typed)
}

/// One instruction: the operands become those that it can leave.
#[cycle(check)]
fn check_instr(
    alloc: Global,
    scope: Scope<'_>,
    labels: &mut Stack<BlockType>,
    operands: &mut Operands,
    instr: &Instr,
) -> Result<bool, AllocError>
    ensures effect { IfOk result (λ ok. Stepped scope.entry labels.old instr.now operands.old operands.new ok) }
    ensures same { OnOk result (labels.new ≡ labels.old) }
{
    match instr {
        Instr::Unreachable => {
            operands.forget();
            Ok(true)
        }
        Instr::Nop => Ok(true),
        Instr::Block(block_type, body) => {
            if !check_block(alloc, scope, labels, *block_type, body.items(), *block_type)? {
                return Ok(false);
            }
            operands.leave_block(*block_type)?;
            Ok(true)
        }
        Instr::Loop(block_type, body) => {
            if !check_block(alloc, scope, labels, None, body.items(), *block_type)? {
                return Ok(false);
            }
            operands.leave_block(*block_type)?;
            Ok(true)
        }
        Instr::If(block_type, first, second) => {
            if !check_block(
                alloc,
                scope,
                labels,
                *block_type,
                first.items(),
                *block_type,
            )? {
                return Ok(false);
            }
            if !check_block(
                alloc,
                scope,
                labels,
                *block_type,
                second.items(),
                *block_type,
            )? {
                return Ok(false);
            }
            operands.exchange(&[ValType::I32], *block_type)
        }
        Instr::Br(label) => Ok(scope.branch(labels, operands, *label)),
        Instr::BrIf(label) => scope.branch_if(labels, operands, *label),
        Instr::BrTable(targets, default) => {
            Ok(scope.branch_table(labels, operands, targets.items(), *default))
        }
        Instr::Return => Ok(operands.jump(scope.returns)),
        Instr::Call(index) => scope.call(operands, *index),
        Instr::CallIndirect(index) => scope.call_indirect(operands, *index),
        Instr::Drop => Ok(operands.take_any()),
        Instr::Select => scope.select(operands),
        Instr::LocalGet(index) => scope.local_get(operands, *index),
        Instr::LocalSet(index) => scope.local_set(operands, *index),
        Instr::LocalTee(index) => scope.local_tee(operands, *index),
        Instr::GlobalGet(index) => scope.global_get(operands, *index),
        Instr::GlobalSet(index) => scope.global_set(operands, *index),
        Instr::Load(opcode, align, offset) => scope.load(operands, *opcode, *align, *offset),
        Instr::Store(opcode, align, offset) => scope.store(operands, *opcode, *align, *offset),
        Instr::MemorySize => scope.memory_size(operands),
        Instr::MemoryGrow => scope.memory_grow(operands),
        Instr::MemoryCopy => scope.memory_range(operands),
        Instr::MemoryFill => scope.memory_range(operands),
        Instr::I32Const(value) => scope.i32_const(operands, *value),
        Instr::I64Const(value) => scope.i64_const(operands, *value),
        Instr::Num(opcode) => scope.num(operands, *opcode),
        Instr::FloatMemory(_, _, _) => Ok(false),
        Instr::F32Const(_) => Ok(false),
        Instr::F64Const(_) => Ok(false),
        Instr::FloatOp(_) => Ok(false),
    }
}

/// The block type that stands for a function's results.
fn block_type_of(types: &[ValType]) -> BlockType
    requires { length types.now ≤ 1 }
    ensures { results result ≡ types.now }
{
    types.first().copied()
}

/// Whether a body has a typing as a function of this type.
///
/// # Errors
///
/// Where no memory was left.
pub fn is_typed(
    alloc: Global,
    module: &Module,
    signature: &FuncType,
    body: &Body,
) -> Result<bool, NoMemory>
    requires { length signature.now.results ≤ 1 }
    ensures { IfOk result (λ typed. IsTrue typed ↔ IsTyped module.now (function_of signature.now body.now)) }
{
    let returns = block_type_of(signature.results());
    let scope = Scope {
        program: module,
        params: signature.params(),
        declared: body.locals(),
        returns,
    };
    let mut labels = Stack::new(alloc);
    match check_block(
        alloc,
        scope,
        &mut labels,
        returns,
        body.code().items(),
        returns,
    ) {
        Ok(typed) => Ok(typed),
        Err(_) => Err(NoMemory),
    }
}
