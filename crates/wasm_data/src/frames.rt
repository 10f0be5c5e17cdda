//! Frames that are opened and closed in one array of values.

ghost use Rattle.std.specs.Prelude.{◌≡◌, [], ◌++◌, ◌-◌, ◌+◌, ◌≤◌, length, take, drop, reverse, replicate};
ghost use Rattle.wasm_semantics.specs.Operators.{truth};
ghost use Rattle.wasm_data.specs.Marked.{AreInArray, locals_in, operands_in};

use crate::marks::Marks;

/// Opens a frame whose locals are so many of the topmost operands and so many zeros.
#[inline(always)]
pub fn open_frame(values: &mut [u64], marks: Marks, params: usize, declared: usize) -> Marks
    requires within { AreInArray marks (length values.old) }
    requires params { params ≤ marks.sp - marks.floor }
    requires room { marks.sp + declared ≤ length values.old }
    ensures base { result.base ≡ marks.sp - params }
    ensures floor { result.floor ≡ marks.sp + declared }
    ensures sp { result.sp ≡ marks.sp + declared }
    ensures locals { let args = reverse (take params (operands_in marks.floor marks.sp values.old)) in
        locals_in result.base result.floor values.new ≡ args ++ replicate declared 0 }
    ensures operands { operands_in result.floor result.sp values.new ≡ [] }
    ensures callers_locals { locals_in marks.base marks.floor values.new ≡ locals_in marks.base marks.floor values.old }
    ensures callers_operands { operands_in marks.floor result.base values.new ≡ drop params (operands_in marks.floor marks.sp values.old) }
    ensures deep { take result.base values.new ≡ take result.base values.old }
{
    let floor = marks.sp + declared;
    'zeros: for i in marks.sp..floor {
        values[i] = 0;
    }
    Marks {
        base: marks.sp - params,
        floor,
        sp: floor,
    }
}

/// Puts the topmost operand of a frame, or none, onto those of the frame below; answers where the free places begin.
#[inline(always)]
pub fn hand(values: &mut [u64], marks: Marks, below: Marks, gives: bool) -> usize
    requires within { AreInArray marks (length values.old) }
    requires below { AreInArray below (length values.old) }
    requires begins { below.sp ≡ marks.base }
    requires room { marks.floor + truth gives ≤ marks.sp }
    ensures sp { result ≡ below.sp + truth gives }
    ensures operands { operands_in below.floor result values.new
        ≡ take (truth gives) (operands_in marks.floor marks.sp values.old) ++ operands_in below.floor below.sp values.old }
    ensures deep { take below.sp values.new ≡ take below.sp values.old }
{
    if gives {
        values[below.sp] = values[marks.sp - 1];
        below.sp + 1
    } else {
        below.sp
    }
}
