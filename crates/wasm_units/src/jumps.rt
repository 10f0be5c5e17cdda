//! Units that branch by an operand.

ghost use Rattle.std.specs.Prelude.{◌≡◌, get_or};
ghost use Rattle.wasm_ast.specs.declared.trees.Instr.{Instr as Instruction};
ghost use Rattle.wasm_ast.specs.declared.trees.Instr.TheOpen.{Instr-F};
ghost use Rattle.wasm_frames.specs.Standing.{held, IsStanding};
ghost use Rattle.wasm_units.specs.Acts.{CanAct, Acts};

use wasm_ast::{Indices, Instr};
use wasm_blocks::Open;
use wasm_data::top;
use wasm_frames::{Active, Place, Turn, jump, with_sp};
use wasm_stack::Stack;

/// The label with this number, or the other where there is none.
#[inline(always)]
fn label_at(labels: &[u32], other: u32, number: u64) -> usize
    ensures { result ≡ get_or labels.now number other }
{
    if number < labels.len() as u64 {
        labels[number as usize] as usize
    } else {
        other as usize
    }
}

/// Goes to a label where the topmost operand, which is taken off, is not 0.
#[inline(always)]
pub(crate) fn jump_if<'m>(
    active: Active<'m>,
    values: &mut [u64],
    label: u32,
    opens: &mut Stack<Open>,
    nexts: &mut Stack<&'m [Instr]>,
    places: &mut Stack<Place>,
    codes: &mut Stack<&'m [Instr]>,
) -> Turn<'m>
    requires stands { IsStanding active (held places.old codes.old values.old opens.old nexts.old) }
    requires ruled { CanAct (Instr-F.BrIf label) active (held places.old codes.old values.old opens.old nexts.old) }
    ensures { (i : Instruction) →
        let before = held places.old codes.old values.old opens.old nexts.old in
        let after = held places.new codes.new values.new opens.new nexts.new in
        Acts i (Instr-F.BrIf label) active.entry before after result }
{
    let value = top(values, active.hot.marks);
    let popped = with_sp(active, active.hot.marks.sp - 1);
    if value == 0 {
        return Turn::Goes(popped);
    }
    jump(popped, values, label as usize, opens, nexts, places, codes)
}

/// Goes to the label with the number that the topmost operand is, which is taken off, or to the other where there is none.
#[inline(always)]
pub(crate) fn jump_by<'m>(
    active: Active<'m>,
    values: &mut [u64],
    labels: &Indices,
    other: u32,
    opens: &mut Stack<Open>,
    nexts: &mut Stack<&'m [Instr]>,
    places: &mut Stack<Place>,
    codes: &mut Stack<&'m [Instr]>,
) -> Turn<'m>
    requires stands { IsStanding active (held places.old codes.old values.old opens.old nexts.old) }
    requires ruled { CanAct (Instr-F.BrTable labels.now other) active (held places.old codes.old values.old opens.old nexts.old) }
    ensures { (i : Instruction) →
        let before = held places.old codes.old values.old opens.old nexts.old in
        let after = held places.new codes.new values.new opens.new nexts.new in
        Acts i (Instr-F.BrTable labels.now other) active.entry before after result }
{
    let value = top(values, active.hot.marks);
    let popped = with_sp(active, active.hot.marks.sp - 1);
    let label = label_at(labels.items(), other, value);
    jump(popped, values, label, opens, nexts, places, codes)
}
