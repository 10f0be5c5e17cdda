//! Open blocks of the frame that runs.

ghost use Rattle.std.specs.Prelude.{◌≡◌, ◌∷◌, ◌+◌, ◌-◌, ◌<◌, List, if◌then◌else◌, length, IfOk};
ghost use Rattle.wasm_ast.specs.declared.trees.Instr.{Instr as Instruction};
ghost use Rattle.wasm_ast.specs.Trees.{layer};
ghost use Rattle.wasm_semantics.specs.Operators.{truth};
ghost use Rattle.wasm_semantics.specs.Control.{enter, branch_at, leave};
ghost use Rattle.wasm_data.specs.Cuts.{above};
ghost use Rattle.wasm_data.specs.Marked.{operands_in};
ghost use Rattle.wasm_blocks.specs.Levels.{rest_of, HasKept};
ghost use Rattle.wasm_blocks.specs.Runs.{StandsInArray, GoesOnAnywhere, place, own_nexts};
ghost use Rattle.wasm_blocks.specs.Rest.{Placed, part_of};

use crate::hot::Hot;
use crate::open::Open;
use std::alloc::AllocError;
use wasm_ast::Instr;
use wasm_data::keep;
use wasm_stack::Stack;

/// The code behind a block, of that which a branch to it goes on with.
#[inline(always)]
fn behind(loops: bool, next: &[Instr]) -> &[Instr]
    ensures { result.now ≡ rest_of loops next.now }
{
    if !loops {
        return next;
    }
    match next.split_first() {
        Some((_, rest)) => rest,
        None => next,
    }
}

/// Opens a block with this code. A branch to it goes on with `next`, which is the code behind it, or that code with the loop itself.
///
/// # Errors
///
/// Out of memory: the stacks are of no use any more.
#[inline(always)]
pub fn enter_block<'m>(
    hot: Hot<'m>,
    values: &[u64],
    code: &'m [Instr],
    next: &'m [Instr],
    loops: bool,
    second: bool,
    keeps: bool,
    opens: &mut Stack<Open>,
    nexts: &mut Stack<&'m [Instr]>,
) -> Result<Hot<'m>, AllocError>
    requires stands { StandsInArray hot values.now opens.old nexts.old }
    requires rest { rest_of loops next.now ≡ hot.code.now }
    ensures goes { IfOk result (λ now.
        GoesOnAnywhere (λ a. let p = place a hot.entry values.now opens.old nexts.old in enter p p.level.values code.now (truth keeps) next.now)
        hot.entry now values.now values.now opens.old opens.new nexts.old nexts.new) }
    ensures placed { IfOk result (λ now. (body : List Instruction) (i : Instruction) →
        Placed body (i ∷ hot.entry.code.now) (own_nexts hot.entry.low opens.old nexts.old) (above hot.entry.low opens.old) →
        next.now ≡ (if loops then i ∷ hot.entry.code.now else hot.entry.code.now) → part_of second (layer i) ≡ code.now →
        Placed body now.code.now (own_nexts now.low opens.new nexts.new) (above now.low opens.new)) }
{
    opens.push(Open {
        left: next.len(),
        height: hot.marks.sp - hot.marks.floor,
        second,
        loops,
        keeps,
    })?;
    nexts.push(next)?;
    Ok(Hot {
        code,
        marks: hot.marks,
        low: hot.low,
    })
}

/// Leaves a block at its end.
#[inline(always)]
pub fn leave_block<'m>(
    hot: Hot<'m>,
    values: &[u64],
    opens: &mut Stack<Open>,
    nexts: &mut Stack<&'m [Instr]>,
) -> Hot<'m>
    requires stands { StandsInArray hot values.now opens.old nexts.old }
    requires inside { hot.low < length opens.old }
    ensures fewer { length opens.new < length opens.old }
    ensures goes { GoesOnAnywhere (λ a. leave (place a hot.entry values.now opens.old nexts.old))
        hot.entry result values.now values.now opens.old opens.new nexts.old nexts.new }
    ensures placed { (body : List Instruction) →
        Placed body hot.entry.code.now (own_nexts hot.entry.low opens.old nexts.old) (above hot.entry.low opens.old) →
        Placed body result.code.now (own_nexts result.low opens.new nexts.new) (above result.low opens.new) }
{
    let Some(open) = opens.pop() else {
        unreachable!();
    };
    let Some(next) = nexts.pop() else {
        unreachable!();
    };
    Hot {
        code: behind(open.loops, next),
        marks: hot.marks,
        low: hot.low,
    }
}

/// Goes to the label of an open block.
#[inline(always)]
pub fn branch_to<'m>(
    hot: Hot<'m>,
    values: &mut [u64],
    label: usize,
    opens: &mut Stack<Open>,
    nexts: &mut Stack<&'m [Instr]>,
) -> Hot<'m>
    requires stands { StandsInArray hot values.old opens.old nexts.old }
    requires inside { label + hot.low < length opens.old }
    requires kept { HasKept (above hot.low opens.old) label (operands_in hot.marks.floor hot.marks.sp values.old) }
    ensures fewer { length opens.new < length opens.old }
    ensures goes { GoesOnAnywhere (λ a. let p = place a hot.entry values.old opens.old nexts.old in branch_at p label p.level.values)
        hot.entry result values.old values.new opens.old opens.new nexts.old nexts.new }
    ensures placed { (body : List Instruction) →
        Placed body hot.entry.code.now (own_nexts hot.entry.low opens.old nexts.old) (above hot.entry.low opens.old) →
        Placed body result.code.now (own_nexts result.low opens.new nexts.new) (above result.low opens.new) }
{
    let Some(open) = opens.copy_at(label) else {
        unreachable!();
    };
    let Some(next) = nexts.copy_at(label) else {
        unreachable!();
    };
    opens.truncate(opens.len() - 1 - label);
    nexts.truncate(nexts.len() - 1 - label);
    let sp = keep(values, hot.marks, hot.marks.floor + open.height, open.keeps);
    Hot {
        code: next,
        marks: hot.marks.raised(sp),
        low: hot.low,
    }
}
