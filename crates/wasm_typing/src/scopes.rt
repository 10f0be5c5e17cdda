//! What stays the same within the code of a body, and what each instruction without parts does there.

ghost use Rattle.std.specs.Prelude.{◌≡◌, ◌↔◌, ◌<◌, ◌^◌, [], ◌∷◌, List, ℕ, Option, IfOk, IsTrue};
ghost use Rattle.wasm_ast.specs.declared.val_types.ValType.{ValType};
ghost use Rattle.wasm_ast.specs.declared.trees.Instr.TheOpen.{Instr-F};
ghost use Rattle.wasm_ast.specs.Typing.{Lead, results};
ghost use Rattle.wasm_typing.specs.Scopes.{TypeEffect, EffectHere, EffectAnywhere, labels_of};

use crate::opcodes::{load_at, operator_at, store_at};
use crate::operands::Operands;
use crate::spaces::{function_type, global_at, local_type, memory_in, table_in, type_at};
use std::alloc::AllocError;
use wasm_ast::{BlockType, Module, ValType};
use wasm_stack::Stack;

/// The module, the types of the parameters and of the declared locals, and what the function returns.
#[derive(Clone, Copy)]
pub struct Scope<'a> {
    pub program: &'a Module,
    pub params: &'a [ValType],
    pub declared: &'a [ValType],
    pub returns: BlockType,
}

impl Scope<'_> {
    /// `br`.
    pub fn branch(self, labels: &Stack<BlockType>, operands: &mut Operands, label: u32) -> bool
        ensures { TypeEffect self.entry labels.now (Instr-F.Br label) operands.old operands.new result }
    {
        match labels.copy_at(label as usize) {
            Some(taken) => operands.jump(taken),
            None => false,
        }
    }

    /// `br_if`.
    pub fn branch_if(
        self,
        labels: &Stack<BlockType>,
        operands: &mut Operands,
        label: u32,
    ) -> Result<bool, AllocError>
        ensures { EffectHere self.entry labels.now (Instr-F.BrIf label) operands.old operands.new result }
    {
        let Some(taken) = labels.copy_at(label as usize) else {
            return Ok(false);
        };
        if !operands.take(ValType::I32) {
            return Ok(false);
        }
        operands.pass(taken)
    }

    /// `call`.
    pub fn call(self, operands: &mut Operands, index: u32) -> Result<bool, AllocError>
        ensures { EffectAnywhere self.entry (Instr-F.Call index) operands.old operands.new result }
    {
        match function_type(self.program, index) {
            Some(signature) => operands.apply(signature),
            None => Ok(false),
        }
    }

    /// `call_indirect`.
    pub fn call_indirect(self, operands: &mut Operands, index: u32) -> Result<bool, AllocError>
        ensures { EffectAnywhere self.entry (Instr-F.CallIndirect index) operands.old operands.new result }
    {
        let Some(signature) = type_at(self.program, index) else {
            return Ok(false);
        };
        let Some(_) = table_in(self.program) else {
            return Ok(false);
        };
        if !operands.take(ValType::I32) {
            return Ok(false);
        }
        operands.apply(signature)
    }

    /// `select`.
    pub fn select(self, operands: &mut Operands) -> Result<bool, AllocError>
        ensures { EffectAnywhere self.entry Instr-F.Select operands.old operands.new result }
    {
        if !operands.take(ValType::I32) {
            return Ok(false);
        }
        operands.choose()
    }

    /// `local.get`.
    pub fn local_get(self, operands: &mut Operands, index: u32) -> Result<bool, AllocError>
        ensures { EffectAnywhere self.entry (Instr-F.LocalGet index) operands.old operands.new result }
    {
        match local_type(self.params, self.declared, index) {
            Some(val_type) => operands.exchange(&[], Some(val_type)),
            None => Ok(false),
        }
    }

    /// `local.set`.
    pub fn local_set(self, operands: &mut Operands, index: u32) -> Result<bool, AllocError>
        ensures { EffectAnywhere self.entry (Instr-F.LocalSet index) operands.old operands.new result }
    {
        match local_type(self.params, self.declared, index) {
            Some(val_type) => operands.exchange(&[val_type], None),
            None => Ok(false),
        }
    }

    /// `local.tee`.
    pub fn local_tee(self, operands: &mut Operands, index: u32) -> Result<bool, AllocError>
        ensures { EffectAnywhere self.entry (Instr-F.LocalTee index) operands.old operands.new result }
    {
        match local_type(self.params, self.declared, index) {
            Some(val_type) => operands.exchange(&[val_type], Some(val_type)),
            None => Ok(false),
        }
    }

    /// `global.get`.
    pub fn global_get(self, operands: &mut Operands, index: u32) -> Result<bool, AllocError>
        ensures { EffectAnywhere self.entry (Instr-F.GlobalGet index) operands.old operands.new result }
    {
        match global_at(self.program, index) {
            Some(global) => operands.exchange(&[], Some(global.val_type())),
            None => Ok(false),
        }
    }

    /// `global.set`.
    pub fn global_set(self, operands: &mut Operands, index: u32) -> Result<bool, AllocError>
        ensures { EffectAnywhere self.entry (Instr-F.GlobalSet index) operands.old operands.new result }
    {
        let Some(global) = global_at(self.program, index) else {
            return Ok(false);
        };
        if !global.mutable() {
            return Ok(false);
        }
        operands.exchange(&[global.val_type()], None)
    }

    /// `memory.size`.
    pub fn memory_size(self, operands: &mut Operands) -> Result<bool, AllocError>
        ensures { EffectAnywhere self.entry Instr-F.MemorySize operands.old operands.new result }
    {
        match memory_in(self.program) {
            Some(_) => operands.exchange(&[], Some(ValType::I32)),
            None => Ok(false),
        }
    }

    /// `memory.grow`.
    pub fn memory_grow(self, operands: &mut Operands) -> Result<bool, AllocError>
        ensures { EffectAnywhere self.entry Instr-F.MemoryGrow operands.old operands.new result }
    {
        match memory_in(self.program) {
            Some(_) => operands.exchange(&[ValType::I32], Some(ValType::I32)),
            None => Ok(false),
        }
    }

    /// `memory.copy` and `memory.fill`, which take and leave the same.
    pub fn memory_range(self, operands: &mut Operands) -> Result<bool, AllocError>
        ensures copy { EffectAnywhere self.entry Instr-F.MemoryCopy operands.old operands.new result }
        ensures fill { EffectAnywhere self.entry Instr-F.MemoryFill operands.old operands.new result }
    {
        match memory_in(self.program) {
            Some(_) => operands.exchange(&[ValType::I32, ValType::I32, ValType::I32], None),
            None => Ok(false),
        }
    }

    /// A load.
    pub fn load(
        self,
        operands: &mut Operands,
        opcode: u8,
        align: u32,
        offset: u32,
    ) -> Result<bool, AllocError>
        ensures { EffectAnywhere self.entry (Instr-F.Load opcode align offset) operands.old operands.new result }
    {
        let Some(moved) = load_at(opcode) else {
            return Ok(false);
        };
        if align > moved.exponent {
            return Ok(false);
        }
        match memory_in(self.program) {
            Some(_) => operands.exchange(&[ValType::I32], Some(moved.val_type)),
            None => Ok(false),
        }
    }

    /// A store.
    pub fn store(
        self,
        operands: &mut Operands,
        opcode: u8,
        align: u32,
        offset: u32,
    ) -> Result<bool, AllocError>
        ensures { EffectAnywhere self.entry (Instr-F.Store opcode align offset) operands.old operands.new result }
    {
        let Some(moved) = store_at(opcode) else {
            return Ok(false);
        };
        if align > moved.exponent {
            return Ok(false);
        }
        match memory_in(self.program) {
            Some(_) => operands.exchange(&[ValType::I32, moved.val_type], None),
            None => Ok(false),
        }
    }

    /// `i32.const`.
    pub fn i32_const(self, operands: &mut Operands, value: u32) -> Result<bool, AllocError>
        ensures { EffectAnywhere self.entry (Instr-F.I32Const value) operands.old operands.new result }
    {
        operands.exchange(&[], Some(ValType::I32))
    }

    /// `i64.const`.
    pub fn i64_const(self, operands: &mut Operands, value: u64) -> Result<bool, AllocError>
        ensures { EffectAnywhere self.entry (Instr-F.I64Const value) operands.old operands.new result }
    {
        operands.exchange(&[], Some(ValType::I64))
    }

    /// An operator on integers.
    pub fn num(self, operands: &mut Operands, opcode: u8) -> Result<bool, AllocError>
        ensures { EffectAnywhere self.entry (Instr-F.Num opcode) operands.old operands.new result }
    {
        let Some(operator) = operator_at(opcode) else {
            return Ok(false);
        };
        let operand = operator.operand;
        if operator.binary {
            return operands.exchange(&[operand, operand], Some(operator.leaves));
        }
        operands.exchange(&[operand], Some(operator.leaves))
    }

    /// `br_table`.
    pub fn branch_table(
        self,
        labels: &Stack<BlockType>,
        operands: &mut Operands,
        targets: &[u32],
        default: u32,
    ) -> bool
        ensures { TypeEffect self.entry labels.now (Instr-F.BrTable targets.now default) operands.old operands.new result }
    {
        let Some(taken) = labels.copy_at(default as usize) else {
            return false;
        };
        if !all_lead(labels, taken, targets) {
            return false;
        }
        if !operands.take(ValType::I32) {
            return false;
        }
        operands.jump(taken)
    }
}

/// Whether a branch to each of these labels takes the same.
fn all_lead(labels: &Stack<BlockType>, taken: BlockType, targets: &[u32]) -> bool
    ensures { IsTrue result ↔ Lead (labels_of labels.now) (results taken) targets.now }
{
    for label in targets {
        match labels.copy_at(*label as usize) {
            Some(found) => {
                if !is_same(found, taken) {
                    return false;
                }
            }
            None => return false,
        }
    }
    true
}

fn is_same(found: BlockType, taken: BlockType) -> bool
    ensures { IsTrue result ↔ (found ≡ taken) }
{
    found == taken
}
