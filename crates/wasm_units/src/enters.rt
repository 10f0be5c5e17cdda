//! Units that open blocks.

ghost use Rattle.std.specs.Prelude.{◌≡◌, ◌∷◌, length, nat_eq, if◌then◌else◌};
ghost use Rattle.wasm_ast.specs.declared.trees.Instr.{Instr as Instruction};
ghost use Rattle.wasm_ast.specs.declared.trees.Instr.TheOpen.{Instr-F};
ghost use Rattle.wasm_ast.specs.Typing.{results};
ghost use Rattle.wasm_semantics.specs.Operators.{truth};
ghost use Rattle.wasm_units.specs.Acts.{StandsOver, HasOperand, Enters, inside_of};

use std::alloc::AllocError;
use wasm_ast::{BlockType, Instr, Seq};
use wasm_blocks::{Hot, Open, enter_block};
use wasm_data::top;
use wasm_frames::{Active, Turn, with_sp};
use wasm_stack::Stack;

/// The part of an `if` that a condition chooses.
#[inline(always)]
fn part_for<'m>(first: &'m Seq, second: &'m Seq, condition: u64) -> &'m [Instr]
    ensures { result.now ≡ (if nat_eq condition 0 then second.now.items else first.now.items) }
{
    if condition == 0 {
        second.items()
    } else {
        first.items()
    }
}

/// Whether a block of this type leaves an operand.
#[inline(always)]
fn leaves(block_type: BlockType) -> bool
    ensures { truth result ≡ length (results block_type) }
{
    match block_type {
        None => false,
        Some(_) => true,
    }
}

/// On in the block, where there was memory to open it.
#[inline(always)]
fn inside<'m>(active: Active<'m>, opened: Result<Hot<'m>, AllocError>) -> Turn<'m>
    ensures { result ≡ inside_of active.entry opened.entry }
{
    match opened {
        Ok(hot) => Turn::Grew(Active {
            hot,
            function: active.function,
            gives: active.gives,
        }),
        Err(_) => Turn::NoMemory,
    }
}

/// Opens a block, where the frame runs behind it.
#[inline(always)]
pub(crate) fn open_block<'m>(
    active: Active<'m>,
    values: &[u64],
    block_type: BlockType,
    body: &'m Seq,
    opens: &mut Stack<Open>,
    nexts: &mut Stack<&'m [Instr]>,
) -> Turn<'m>
    requires stands { StandsOver active values.now opens.old nexts.old }
    ensures { (i : Instruction) → let block = Instr-F.Block block_type body.now in
        Enters i block active.entry values.now opens.old opens.new nexts.old nexts.new result }
{
    let code = body.items();
    let keeps = leaves(block_type);
    let next = active.hot.code;
    inside(
        active,
        enter_block(
            active.hot, values, code, next, false, false, keeps, opens, nexts,
        ),
    )
}

/// Opens a loop, where the frame runs behind it; a branch to it takes this code again.
#[inline(always)]
pub(crate) fn open_loop<'m>(
    again: &'m [Instr],
    active: Active<'m>,
    values: &[u64],
    block_type: BlockType,
    body: &'m Seq,
    opens: &mut Stack<Open>,
    nexts: &mut Stack<&'m [Instr]>,
) -> Turn<'m>
    requires stands { StandsOver active values.now opens.old nexts.old }
    requires again { (i : Instruction) × (again.now ≡ i ∷ active.hot.code.now) }
    ensures { (i : Instruction) → again.now ≡ i ∷ active.entry.hot.code.now → let block = Instr-F.Loop block_type body.now in
        Enters i block active.entry values.now opens.old opens.new nexts.old nexts.new result }
{
    let code = body.items();
    inside(
        active,
        enter_block(
            active.hot, values, code, again, true, false, false, opens, nexts,
        ),
    )
}

/// Opens the part of an `if` that the topmost operand chooses, which is taken off, where the frame runs behind it.
#[inline(always)]
pub(crate) fn open_if<'m>(
    active: Active<'m>,
    values: &[u64],
    block_type: BlockType,
    first: &'m Seq,
    second: &'m Seq,
    opens: &mut Stack<Open>,
    nexts: &mut Stack<&'m [Instr]>,
) -> Turn<'m>
    requires stands { StandsOver active values.now opens.old nexts.old }
    requires some { HasOperand active values.now opens.old }
    ensures { (i : Instruction) → let block = Instr-F.If block_type first.now second.now in
        Enters i block active.entry values.now opens.old opens.new nexts.old nexts.new result }
{
    let value = top(values, active.hot.marks);
    let popped = with_sp(active, active.hot.marks.sp - 1);
    let code = part_for(first, second, value);
    let keeps = leaves(block_type);
    let next = active.hot.code;
    inside(
        popped,
        enter_block(
            popped.hot,
            values,
            code,
            next,
            false,
            value == 0,
            keeps,
            opens,
            nexts,
        ),
    )
}
