//! Units that move data.

ghost use Rattle.std.specs.Prelude.{◌≡◌, ◌≢◌, length};
ghost use Rattle.wasm_ast.specs.Trees.{layer};
ghost use Rattle.wasm_ast.specs.Spaces.{page_limit};
ghost use Rattle.wasm_semantics.specs.Data.{Wrong, effect_of};
ghost use Rattle.wasm_semantics.specs.Operands.{operand_types, LieOnTop};
ghost use Rattle.wasm_data.specs.declared.moved.Moved.{Moved as Answer};
ghost use Rattle.wasm_data.specs.Effects.{Does, cells, seen};
ghost use Rattle.wasm_data.specs.Marked.{AreInArray, operands_in};
ghost use Rattle.wasm_units.specs.Acts.{turn_of};

use wasm_ast::{Instr, Module};
use wasm_data::{Moved, data};
use wasm_frames::{Active, Turn, with_sp};
use wasm_memory::Memory;

/// Carries out an instruction that moves data, in the frame that runs behind it.
#[inline(always)]
pub(crate) fn moves<'m>(
    program: &Module,
    pages: u32,
    memory: &mut Memory,
    globals: &mut [u64],
    values: &mut [u64],
    active: Active<'m>,
    instr: &Instr,
) -> Turn<'m>
    requires within { AreInArray active.hot.marks (length values.old) }
    requires maximum { page_limit program.now ≡ memory.old.maximum }
    requires typed { let before = cells memory.old.bytes globals.old values.old in
        effect_of program.now pages (layer instr.now) (seen before active.hot.marks) ≢ Wrong }
    requires fits { let marks = active.hot.marks in
        LieOnTop (operand_types program.now (layer instr.now)) (operands_in marks.floor marks.sp values.old) }
    ensures maximum { memory.new.maximum ≡ memory.old.maximum }
    ensures does { let before = cells memory.old.bytes globals.old values.old in
        let after = cells memory.new.bytes globals.new values.new in
        let marks = active.entry.hot.marks in
        (answer : Answer) × (result ≡ turn_of active.entry answer) ×
        Does (effect_of program.now pages (layer instr.now) (seen before marks)) before after marks answer }
{
    match data(
        program,
        pages,
        memory,
        globals,
        values,
        active.hot.marks,
        instr,
    ) {
        Moved::Goes(sp) => Turn::Goes(with_sp(active, sp)),
        Moved::Trapped(trap) => Turn::Trapped(trap),
        Moved::Full => Turn::Full,
        Moved::NoMemory => Turn::NoMemory,
    }
}
