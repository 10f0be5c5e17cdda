//! The ends of frames, and branches.

ghost use Rattle.std.specs.Prelude.{◌≡◌, ◌∷◌, ◌<◌, length};
ghost use Rattle.wasm_ast.specs.declared.modules.Module.{Module as Program};
ghost use Rattle.wasm_semantics.specs.Threads.{Store};
ghost use Rattle.wasm_semantics.specs.Control.{finish as finished, branch_at};
ghost use Rattle.wasm_frames.specs.Standing.{held, spot_at, IsStanding, IsPlaced};
ghost use Rattle.wasm_frames.specs.Turns.{CanReturn, CanBranch, Answered};

use crate::active::{Active, Place};
use crate::turns::Turn;
use wasm_ast::Instr;
use wasm_blocks::{Hot, Open, branch_to};
use wasm_data::hand;
use wasm_stack::Stack;

/// Ends the frame that runs.
#[inline(always)]
pub fn finish<'m>(
    active: Active<'m>,
    values: &mut [u64],
    opens: &mut Stack<Open>,
    nexts: &mut Stack<&'m [Instr]>,
    places: &mut Stack<Place>,
    codes: &mut Stack<&'m [Instr]>,
) -> Turn<'m>
    requires stands { IsStanding active (held places.old codes.old values.old opens.old nexts.old) }
    requires kept { CanReturn active values.old opens.old }
    ensures { (program : Program) (store : Store) →
        let before = held places.old codes.old values.old opens.old nexts.old in
        let after = held places.new codes.new values.new opens.new nexts.new in
        let p = spot_at program store active.entry before in
        IsPlaced program active.entry before → Answered program (finished p p.level.values) store store before after result }
{
    let Some(code) = codes.pop() else {
        return if places.is_empty() {
            Turn::Done
        } else {
            Turn::Cold
        };
    };
    let Some(below) = places.pop() else {
        unreachable!();
    };
    let low = active.hot.low;
    nexts.truncate(nexts.len() - (opens.len() - low));
    opens.truncate(low);
    let sp = hand(values, active.hot.marks, below.marks, active.gives);
    Turn::Goes(Active {
        hot: Hot {
            code,
            marks: below.marks.raised(sp),
            low: below.low,
        },
        function: below.function,
        gives: below.gives,
    })
}

/// Goes to a label: that of an open block, or the end of the frame.
#[inline(always)]
pub fn jump<'m>(
    active: Active<'m>,
    values: &mut [u64],
    label: usize,
    opens: &mut Stack<Open>,
    nexts: &mut Stack<&'m [Instr]>,
    places: &mut Stack<Place>,
    codes: &mut Stack<&'m [Instr]>,
) -> Turn<'m>
    requires stands { IsStanding active (held places.old codes.old values.old opens.old nexts.old) }
    requires kept { CanBranch active label values.old opens.old }
    ensures { (program : Program) (store : Store) →
        let before = held places.old codes.old values.old opens.old nexts.old in
        let after = held places.new codes.new values.new opens.new nexts.new in
        let p = spot_at program store active.entry before in
        IsPlaced program active.entry before → Answered program (branch_at p label p.level.values) store store before after result }
{
    if label >= opens.len() - active.hot.low {
        return finish(active, values, opens, nexts, places, codes);
    }
    let hot = branch_to(active.hot, values, label, opens, nexts);
    Turn::Goes(Active {
        hot,
        function: active.function,
        gives: active.gives,
    })
}
