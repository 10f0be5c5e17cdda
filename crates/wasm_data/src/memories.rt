//! Instructions on the memory (Core 1.0, section 4.4.4, and memory.copy and memory.fill).

ghost use Rattle.std.specs.Prelude.{[], ◌∷◌, ◌≡◌, ◌+◌, ◌*◌, ◌<◌, ◌≤◌, ℕ, false, IsTrue, length, Some};
ghost use Rattle.wasm_ast.specs.Operators.{Access, load_of, store_of};
ghost use Rattle.wasm_ast.specs.declared.val_types.ValType.TheVariants.{I32};
ghost use Rattle.wasm_ast.specs.declared.trees.Instr.TheOpen.{Instr-F};
ghost use Rattle.wasm_memory.specs.Contents.{is_width};
ghost use Rattle.wasm_semantics.specs.Operators.{read_as};
ghost use Rattle.wasm_semantics.specs.Operands.{LieOnTop, stored_by};
ghost use Rattle.wasm_data.specs.Effects.{CarriesMemory};
ghost use Rattle.wasm_data.specs.Marked.{AreInArray, operands_in};
ghost use Rattle.wasm_data.specs.Operands.{is_read, IsLoad, IsStoreCode, access};

use crate::marks::{Marks, put, top};
use crate::moved::Moved;
use crate::operators::{extended, is_wide};
use crate::places::push;
use wasm_ast::ValType::{self, I32, I64};
use wasm_memory::Memory;
use wasm_semantics::Trap;

/// The value of a type that a load of a width makes of a number.
#[inline(always)]
fn read(val_type: ValType, width: u32, signed: bool, number: u64) -> u64
    requires { IsTrue (is_read width signed) }
    ensures { result ≡ read_as (access val_type width signed) number }
{
    let wide = is_wide(val_type);
    if signed {
        extended(wide, 8 * width, number)
    } else if wide {
        number
    } else {
        number & 0xffff_ffff
    }
}

/// A load of a type, a width and a sign.
#[inline(always)]
fn load_as(
    memory: &Memory,
    values: &mut [u64],
    marks: Marks,
    code: u8,
    align: u32,
    offset: u32,
    val_type: ValType,
    width: u32,
    signed: bool,
) -> Moved
    requires within { AreInArray marks (length values.old) }
    requires some { marks.floor < marks.sp }
    requires fits { LieOnTop (I32 ∷ []) (operands_in marks.floor marks.sp values.old) }
    requires named { load_of code ≡ Some (access val_type width signed) }
    requires read { IsTrue (is_read width signed) }
    ensures { (pages : ℕ) → CarriesMemory (Instr-F.Load code align offset) pages memory.now memory.now values.old values.new marks result }
{
    let base = top(values, marks) as u32;
    match memory.load(base, offset, width) {
        Ok(number) => {
            put(
                values,
                marks.raised(marks.sp - 1),
                read(val_type, width, signed, number),
            );
            Moved::Goes(marks.sp)
        }
        Err(_) => Moved::Trapped(Trap::Memory),
    }
}

/// The load with this opcode.
#[inline(always)]
#[tactic(auto, unfolding(wasm_ast::specs::Operators::load_of))]
pub(crate) fn load(
    memory: &Memory,
    values: &mut [u64],
    marks: Marks,
    code: u8,
    align: u32,
    offset: u32,
) -> Moved
    requires within { AreInArray marks (length values.old) }
    requires some { marks.floor < marks.sp }
    requires fits { LieOnTop (I32 ∷ []) (operands_in marks.floor marks.sp values.old) }
    requires listed { IsLoad code }
    ensures { (pages : ℕ) → CarriesMemory (Instr-F.Load code align offset) pages memory.now memory.now values.old values.new marks result }
{
    match code {
        40 => load_as(memory, values, marks, code, align, offset, I32, 4, false),
        41 => load_as(memory, values, marks, code, align, offset, I64, 8, false),
        44 => load_as(memory, values, marks, code, align, offset, I32, 1, true),
        45 => load_as(memory, values, marks, code, align, offset, I32, 1, false),
        46 => load_as(memory, values, marks, code, align, offset, I32, 2, true),
        47 => load_as(memory, values, marks, code, align, offset, I32, 2, false),
        48 => load_as(memory, values, marks, code, align, offset, I64, 1, true),
        49 => load_as(memory, values, marks, code, align, offset, I64, 1, false),
        50 => load_as(memory, values, marks, code, align, offset, I64, 2, true),
        51 => load_as(memory, values, marks, code, align, offset, I64, 2, false),
        52 => load_as(memory, values, marks, code, align, offset, I64, 4, true),
        53 => load_as(memory, values, marks, code, align, offset, I64, 4, false),
        _ => unreachable!(),
    }
}

/// A store of a type and a width.
#[inline(always)]
fn store_as(
    memory: &mut Memory,
    values: &[u64],
    marks: Marks,
    code: u8,
    align: u32,
    offset: u32,
    val_type: ValType,
    width: u32,
) -> Moved
    requires within { AreInArray marks (length values.now) }
    requires two { marks.floor + 2 ≤ marks.sp }
    requires named { store_of code ≡ Some (access val_type width false) }
    requires fits { LieOnTop (stored_by (store_of code)) (operands_in marks.floor marks.sp values.now) }
    requires width { IsTrue (is_width width) }
    ensures maximum { memory.new.maximum ≡ memory.old.maximum }
    ensures does { let store = Instr-F.Store code align offset in
        (pages : ℕ) → CarriesMemory store pages memory.old memory.new values.now values.now marks result }
{
    let value = top(values, marks);
    let base = top(values, marks.raised(marks.sp - 1)) as u32;
    match memory.store(base, offset, width, value) {
        Ok(()) => Moved::Goes(marks.sp - 2),
        Err(_) => Moved::Trapped(Trap::Memory),
    }
}

/// The store with this opcode.
#[inline(always)]
#[tactic(auto, unfolding(wasm_ast::specs::Operators::store_of))]
pub(crate) fn store(
    memory: &mut Memory,
    values: &[u64],
    marks: Marks,
    code: u8,
    align: u32,
    offset: u32,
) -> Moved
    requires within { AreInArray marks (length values.now) }
    requires two { marks.floor + 2 ≤ marks.sp }
    requires fits { LieOnTop (stored_by (store_of code)) (operands_in marks.floor marks.sp values.now) }
    requires listed { IsStoreCode code }
    ensures maximum { memory.new.maximum ≡ memory.old.maximum }
    ensures does { let store = Instr-F.Store code align offset in
        (pages : ℕ) → CarriesMemory store pages memory.old memory.new values.now values.now marks result }
{
    match code {
        54 => store_as(memory, values, marks, code, align, offset, I32, 4),
        55 => store_as(memory, values, marks, code, align, offset, I64, 8),
        58 => store_as(memory, values, marks, code, align, offset, I32, 1),
        59 => store_as(memory, values, marks, code, align, offset, I32, 2),
        60 => store_as(memory, values, marks, code, align, offset, I64, 1),
        61 => store_as(memory, values, marks, code, align, offset, I64, 2),
        62 => store_as(memory, values, marks, code, align, offset, I64, 4),
        _ => unreachable!(),
    }
}

/// `memory.size`.
#[inline(always)]
pub(crate) fn size(memory: &Memory, values: &mut [u64], marks: Marks) -> Moved
    requires { AreInArray marks (length values.old) }
    ensures { (pages : ℕ) → CarriesMemory Instr-F.MemorySize pages memory.now memory.now values.old values.new marks result }
{
    push(values, marks, memory.size() as u64)
}

/// `memory.grow`, where a memory may have so many pages.
pub(crate) fn grow(pages: u32, memory: &mut Memory, values: &mut [u64], marks: Marks) -> Moved
    requires within { AreInArray marks (length values.old) }
    requires some { marks.floor < marks.sp }
    requires fits { LieOnTop (I32 ∷ []) (operands_in marks.floor marks.sp values.old) }
    ensures maximum { memory.new.maximum ≡ memory.old.maximum }
    ensures does { CarriesMemory Instr-F.MemoryGrow pages memory.old memory.new values.old values.new marks result }
{
    let more = top(values, marks) as u32;
    match memory.grow(more, pages) {
        Ok(Some(old)) => {
            put(values, marks.raised(marks.sp - 1), old as u64);
            Moved::Goes(marks.sp)
        }
        Ok(None) => {
            put(values, marks.raised(marks.sp - 1), 0xffff_ffff);
            Moved::Goes(marks.sp)
        }
        Err(_) => Moved::NoMemory,
    }
}

/// `memory.copy`.
pub(crate) fn copy(memory: &mut Memory, values: &[u64], marks: Marks) -> Moved
    requires within { AreInArray marks (length values.now) }
    requires three { marks.floor + 3 ≤ marks.sp }
    requires fits { LieOnTop (I32 ∷ I32 ∷ I32 ∷ []) (operands_in marks.floor marks.sp values.now) }
    ensures maximum { memory.new.maximum ≡ memory.old.maximum }
    ensures does { (pages : ℕ) → CarriesMemory Instr-F.MemoryCopy pages memory.old memory.new values.now values.now marks result }
{
    let len = top(values, marks) as u32;
    let from = top(values, marks.raised(marks.sp - 1)) as u32;
    let to = top(values, marks.raised(marks.sp - 2)) as u32;
    match memory.copy_within(to, from, len) {
        Ok(()) => Moved::Goes(marks.sp - 3),
        Err(_) => Moved::Trapped(Trap::Memory),
    }
}

/// `memory.fill`.
pub(crate) fn fill(memory: &mut Memory, values: &[u64], marks: Marks) -> Moved
    requires within { AreInArray marks (length values.now) }
    requires three { marks.floor + 3 ≤ marks.sp }
    requires fits { LieOnTop (I32 ∷ I32 ∷ I32 ∷ []) (operands_in marks.floor marks.sp values.now) }
    ensures maximum { memory.new.maximum ≡ memory.old.maximum }
    ensures does { (pages : ℕ) → CarriesMemory Instr-F.MemoryFill pages memory.old memory.new values.now values.now marks result }
{
    let len = top(values, marks) as u32;
    let value = (top(values, marks.raised(marks.sp - 1)) & 0xff) as u8;
    let at = top(values, marks.raised(marks.sp - 2)) as u32;
    match memory.fill(at, value, len) {
        Ok(()) => Moved::Goes(marks.sp - 3),
        Err(_) => Moved::Trapped(Trap::Memory),
    }
}
