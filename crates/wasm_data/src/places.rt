//! Instructions on operands, locals and globals (Core 1.0, sections 4.4.2 and 4.4.3).

ghost use Rattle.std.specs.Prelude.{◌∷◌, ◌+◌, ◌-◌, ◌<◌, ◌≤◌, length};
ghost use Rattle.wasm_ast.specs.declared.trees.Instr.TheOpen.{Instr-F};
ghost use Rattle.wasm_semantics.specs.Data.{moves};
ghost use Rattle.wasm_data.specs.Effects.{DoesToValues, CarriesOut, CarriesGlobals};
ghost use Rattle.wasm_data.specs.Marked.{AreInArray};

use crate::marks::{Marks, local, put, set_local, top};
use crate::moved::Moved;

/// One operand more.
#[inline(always)]
pub(crate) fn push(values: &mut [u64], marks: Marks, value: u64) -> Moved
    requires { AreInArray marks (length values.old) }
    ensures { DoesToValues (λ d. moves d (value ∷ d.values)) values.old values.new marks result }
{
    if marks.sp == values.len() {
        return Moved::Full;
    }
    put(values, marks, value);
    Moved::Goes(marks.sp + 1)
}

/// `drop`.
#[inline(always)]
pub(crate) fn discard(values: &mut [u64], marks: Marks) -> Moved
    requires within { AreInArray marks (length values.old) }
    requires some { marks.floor < marks.sp }
    ensures { CarriesOut Instr-F.Drop values.old values.new marks result }
{
    let _top = top(values, marks);
    Moved::Goes(marks.sp - 1)
}

/// `select`.
#[inline(always)]
pub(crate) fn select(values: &mut [u64], marks: Marks) -> Moved
    requires within { AreInArray marks (length values.old) }
    requires three { marks.floor + 3 ≤ marks.sp }
    ensures { CarriesOut Instr-F.Select values.old values.new marks result }
{
    let condition = top(values, marks);
    let second = top(values, marks.raised(marks.sp - 1));
    let first = top(values, marks.raised(marks.sp - 2));
    let chosen = if condition == 0 { second } else { first };
    put(values, marks.raised(marks.sp - 3), chosen);
    Moved::Goes(marks.sp - 2)
}

/// `local.get`.
#[inline(always)]
pub(crate) fn local_get(values: &mut [u64], marks: Marks, index: usize) -> Moved
    requires within { AreInArray marks (length values.old) }
    requires there { index < marks.floor - marks.base }
    ensures { CarriesOut (Instr-F.LocalGet index) values.old values.new marks result }
{
    let value = local(values, marks, index);
    push(values, marks, value)
}

/// `local.set`.
#[inline(always)]
pub(crate) fn local_set(values: &mut [u64], marks: Marks, index: usize) -> Moved
    requires within { AreInArray marks (length values.old) }
    requires there { index < marks.floor - marks.base }
    requires some { marks.floor < marks.sp }
    ensures { CarriesOut (Instr-F.LocalSet index) values.old values.new marks result }
{
    let value = top(values, marks);
    set_local(values, marks.raised(marks.sp - 1), index, value);
    Moved::Goes(marks.sp - 1)
}

/// `local.tee`.
#[inline(always)]
pub(crate) fn local_tee(values: &mut [u64], marks: Marks, index: usize) -> Moved
    requires within { AreInArray marks (length values.old) }
    requires there { index < marks.floor - marks.base }
    requires some { marks.floor < marks.sp }
    ensures { CarriesOut (Instr-F.LocalTee index) values.old values.new marks result }
{
    let value = top(values, marks);
    set_local(values, marks, index, value);
    Moved::Goes(marks.sp)
}

/// `global.get`.
#[inline(always)]
pub(crate) fn global_get(globals: &[u64], values: &mut [u64], marks: Marks, index: usize) -> Moved
    requires within { AreInArray marks (length values.old) }
    requires there { index < length globals.now }
    ensures { CarriesGlobals (Instr-F.GlobalGet index) globals.now globals.now values.old values.new marks result }
{
    push(values, marks, globals[index])
}

/// `global.set`.
#[inline(always)]
pub(crate) fn global_set(globals: &mut [u64], values: &[u64], marks: Marks, index: usize) -> Moved
    requires within { AreInArray marks (length values.now) }
    requires there { index < length globals.old }
    requires some { marks.floor < marks.sp }
    ensures { CarriesGlobals (Instr-F.GlobalSet index) globals.old globals.new values.now values.now marks result }
{
    globals[index] = top(values, marks);
    Moved::Goes(marks.sp - 1)
}
