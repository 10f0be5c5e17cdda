//! The code of a frame, found again from its numbers.

ghost use Rattle.std.specs.Prelude.{◌≡◌, ◌-◌, ◌≤◌, length, slice_get, IfOk, OnOk};
ghost use Rattle.wasm_ast.specs.Trees.{layer};
ghost use Rattle.wasm_data.specs.Cuts.{above, under};
ghost use Rattle.wasm_blocks.specs.Rest.{last, part_of, part_at, from_block, code_in};
ghost use Rattle.wasm_frames.specs.Resting.{body_of};
ghost use Rattle.wasm_exec.specs.Codes.{HasLaid};

use std::alloc::AllocError;
use wasm_ast::{Instr, Module};
use wasm_blocks::Open;
use wasm_stack::Stack;

/// The part of a block, the second one of an `if`, or no code.
fn part_in(instr: &Instr, second: bool) -> &[Instr]
    ensures { result.now ≡ part_of second (layer instr.now) }
{
    match instr {
        Instr::Block(_, body) => body.items(),
        Instr::Loop(_, body) => body.items(),
        Instr::If(_, one, two) => { if second { two.items() } else { one.items() } }
        Instr::Unreachable => &[],
        Instr::Nop => &[],
        Instr::Br(_) => &[],
        Instr::BrIf(_) => &[],
        Instr::BrTable(_, _) => &[],
        Instr::Return => &[],
        Instr::Call(_) => &[],
        Instr::CallIndirect(_) => &[],
        Instr::Drop => &[],
        Instr::Select => &[],
        Instr::LocalGet(_) => &[],
        Instr::LocalSet(_) => &[],
        Instr::LocalTee(_) => &[],
        Instr::GlobalGet(_) => &[],
        Instr::GlobalSet(_) => &[],
        Instr::Load(_, _, _) => &[],
        Instr::Store(_, _, _) => &[],
        Instr::MemorySize => &[],
        Instr::MemoryGrow => &[],
        Instr::MemoryCopy => &[],
        Instr::MemoryFill => &[],
        Instr::I32Const(_) => &[],
        Instr::I64Const(_) => &[],
        Instr::Num(_) => &[],
        Instr::FloatMemory(_, _, _) => &[],
        Instr::F32Const(_) => &[],
        Instr::F64Const(_) => &[],
        Instr::FloatOp(_) => &[],
    }
}

/// The code inside an open block of this code.
fn inside(code: &[Instr], block: Open) -> &[Instr]
    ensures { result.now ≡ part_at block.second (slice_get code.now (length code.now - from_block block)) }
{
    let behind = code.len().saturating_sub(block.left);
    let at = if block.loops {
        behind
    } else {
        behind.saturating_sub(1)
    };
    match code.get(at) {
        Some(instr) => part_in(instr, block.second),
        None => &[],
    }
}

/// The last instructions of this code.
pub(crate) fn last_of(code: &[Instr], left: usize) -> &[Instr]
    ensures { result.now ≡ last code.now left }
{
    &code[code.len().saturating_sub(left)..]
}

/// The code of a function of the module.
pub(crate) fn body_code(program: &Module, function: usize) -> &[Instr]
    ensures { result.now ≡ body_of program.now function }
{
    match program.bodies().get(function) {
        Some(body) => body.code().items(),
        None => &[],
    }
}

/// The code inside the blocks between two heights, all of one frame. What branches to them go on with is put on the stack.
///
/// # Errors
///
/// Out of memory: the stack is of no use any more.
pub(crate) fn find_code<'m>(
    program: &'m Module,
    function: usize,
    opens: &Stack<Open>,
    low: usize,
    high: usize,
    nexts: &mut Stack<&'m [Instr]>,
) -> Result<&'m [Instr], AllocError>
    requires order { low ≤ high }
    requires within { high ≤ length opens.now }
    ensures code { IfOk result (λ code. code.now ≡ code_in (body_of program.now function) (above low (under high opens.now))) }
    ensures nexts { OnOk result (HasLaid (body_of program.now function) (above low (under high opens.now)) nexts.old nexts.new) }
{
    let mut code = body_code(program, function);
    'heights: for height in low..high {
        let Some(block) = opens.copy_at(opens.len() - 1 - height) else {
            unreachable!();
        };
        nexts.push(last_of(code, block.left))?;
        code = inside(code, block);
    }
    Ok(code)
}
