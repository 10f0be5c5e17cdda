//! Units at the end of code.

ghost use Rattle.std.specs.Prelude.{◌≡◌, length};
ghost use Rattle.wasm_ast.specs.declared.modules.Module.{Module as Program};
ghost use Rattle.wasm_semantics.specs.Threads.{Store};
ghost use Rattle.wasm_semantics.specs.Control.{leave};
ghost use Rattle.wasm_frames.specs.Standing.{held, spot_at, IsStanding, IsPlaced};
ghost use Rattle.wasm_frames.specs.Turns.{CanReturn, Answered};

use wasm_ast::Instr;
use wasm_blocks::{Open, leave_block};
use wasm_frames::{Active, Place, Turn, finish};
use wasm_stack::Stack;

/// Leaves the innermost level at its end; the end of a function's own level ends its frame.
#[inline(always)]
pub(crate) fn leave_level<'m>(
    active: Active<'m>,
    values: &mut [u64],
    opens: &mut Stack<Open>,
    nexts: &mut Stack<&'m [Instr]>,
    places: &mut Stack<Place>,
    codes: &mut Stack<&'m [Instr]>,
) -> Turn<'m>
    requires stands { IsStanding active (held places.old codes.old values.old opens.old nexts.old) }
    requires kept { length opens.old ≡ active.hot.low → CanReturn active values.old opens.old }
    ensures { (program : Program) (store : Store) →
        let before = held places.old codes.old values.old opens.old nexts.old in
        let after = held places.new codes.new values.new opens.new nexts.new in
        let p = spot_at program store active.entry before in
        IsPlaced program active.entry before → Answered program (leave p) store store before after result }
{
    if opens.len() == active.hot.low {
        return finish(active, values, opens, nexts, places, codes);
    }
    Turn::Goes(Active {
        hot: leave_block(active.hot, values, opens, nexts),
        function: active.function,
        gives: active.gives,
    })
}
