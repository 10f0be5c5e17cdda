//! An array with the values of all frames, and the marks of the one that runs.

ghost use Rattle.std.specs.Prelude.{◌≡◌, ◌∷◌, ◌-◌, ◌+◌, ◌<◌, ◌≤◌, Some, length, take, ◌++◌, slice_get, slice_set};
ghost use Rattle.wasm_semantics.specs.Operators.{truth};
ghost use Rattle.wasm_data.specs.Cuts.{under};
ghost use Rattle.wasm_data.specs.Marked.{AreInArray, locals_in, operands_in, raised};

/// Where a frame lies in an array of values: its first local, its first operand, and the first free place behind its operands.
#[derive(Clone, Copy, Debug)]
pub struct Marks {
    pub base: usize,
    pub floor: usize,
    pub sp: usize,
}

impl Marks {
    /// The marks with the free places from here on.
    #[inline(always)]
    pub fn raised(self, sp: usize) -> Marks
        ensures { result ≡ raised self sp }
    {
        Marks {
            base: self.base,
            floor: self.floor,
            sp,
        }
    }
}

/// Puts a value on top of the operands.
#[inline(always)]
pub fn put(values: &mut [u64], marks: Marks, value: u64)
    requires within { AreInArray marks (length values.old) }
    requires room { marks.sp < length values.old }
    ensures operands { operands_in marks.floor (marks.sp + 1) values.new ≡ value ∷ operands_in marks.floor marks.sp values.old }
    ensures locals { locals_in marks.base marks.floor values.new ≡ locals_in marks.base marks.floor values.old }
    ensures deep { take marks.base values.new ≡ take marks.base values.old }
{
    values[marks.sp] = value;
}

/// The topmost operand.
#[inline(always)]
pub fn top(values: &[u64], marks: Marks) -> u64
    requires within { AreInArray marks (length values.now) }
    requires some { marks.floor < marks.sp }
    ensures { operands_in marks.floor marks.sp values.now ≡ result ∷ operands_in marks.floor (marks.sp - 1) values.now }
{
    values[marks.sp - 1]
}

/// The local with this index.
#[inline(always)]
pub fn local(values: &[u64], marks: Marks, index: usize) -> u64
    requires within { AreInArray marks (length values.now) }
    requires there { index < marks.floor - marks.base }
    ensures { slice_get (locals_in marks.base marks.floor values.now) index ≡ Some result }
{
    values[marks.base + index]
}

/// Sets the local with this index.
#[inline(always)]
pub fn set_local(values: &mut [u64], marks: Marks, index: usize, value: u64)
    requires within { AreInArray marks (length values.old) }
    requires there { index < marks.floor - marks.base }
    ensures locals { locals_in marks.base marks.floor values.new ≡ slice_set (locals_in marks.base marks.floor values.old) index value }
    ensures operands { operands_in marks.floor marks.sp values.new ≡ operands_in marks.floor marks.sp values.old }
    ensures deep { take marks.base values.new ≡ take marks.base values.old }
{
    values[marks.base + index] = value;
}

/// Keeps the topmost operand, or none, and those below a place; answers where the free places begin.
#[inline(always)]
pub fn keep(values: &mut [u64], marks: Marks, to: usize, keeps: bool) -> usize
    requires within { AreInArray marks (length values.old) }
    requires above { marks.floor ≤ to }
    requires room { to + truth keeps ≤ marks.sp }
    ensures sp { result ≡ to + truth keeps }
    ensures operands { let operands = operands_in marks.floor marks.sp values.old in
        operands_in marks.floor result values.new ≡ take (truth keeps) operands ++ under (to - marks.floor) operands }
    ensures locals { locals_in marks.base marks.floor values.new ≡ locals_in marks.base marks.floor values.old }
    ensures deep { take marks.base values.new ≡ take marks.base values.old }
{
    if keeps {
        values[to] = values[marks.sp - 1];
        to + 1
    } else {
        to
    }
}
