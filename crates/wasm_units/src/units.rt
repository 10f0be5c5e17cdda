//! One unit of a thread.

ghost use Rattle.std.specs.Prelude.{◌≡◌};
ghost use Rattle.wasm_ast.specs.Spaces.{page_limit};
ghost use Rattle.wasm_ast.specs.Validity.{Valid};
ghost use Rattle.wasm_semantics.specs.Units.{unit_at, limited};
ghost use Rattle.wasm_semantics.specs.OfModule.{IsOf};
ghost use Rattle.wasm_frames.specs.Standing.{held, store_of, spot_at, thread_in, IsStanding, IsPlaced};
ghost use Rattle.wasm_frames.specs.Callees.{AreCallees};
ghost use Rattle.wasm_frames.specs.Turns.{Answered, Bounded, IsBounded};

use crate::ends::leave_level;
use crate::enters::{open_block, open_if, open_loop};
use crate::jumps::{jump_by, jump_if};
use crate::moves::moves;
use wasm_ast::{Instr, Module};
use wasm_blocks::{Hot, Open};
use wasm_data::top;
use wasm_frames::{Active, Callee, Place, Turn, call, call_through, finish, jump, with_sp};
use wasm_memory::Memory;
use wasm_semantics::Trap;
use wasm_stack::Stack;

/// One unit, where a memory may have so many pages.
#[inline(always)]
pub fn unit<'m>(
    program: &'m Module,
    callees: &[Callee],
    table: &[Option<u32>],
    pages: u32,
    memory: &mut Memory,
    globals: &mut [u64],
    active: Active<'m>,
    values: &mut [u64],
    opens: &mut Stack<Open>,
    nexts: &mut Stack<&'m [Instr]>,
    places: &mut Stack<Place>,
    codes: &mut Stack<&'m [Instr]>,
) -> Turn<'m>
    requires valid { Valid program.now }
    requires callees { AreCallees program.now callees.now }
    requires maximum { page_limit program.now ≡ memory.old.maximum }
    requires stands { IsStanding active (held places.old codes.old values.old opens.old nexts.old) }
    requires placed { IsPlaced program.now active (held places.old codes.old values.old opens.old nexts.old) }
    requires of { IsOf program.now (thread_in program.now (store_of memory.old.bytes globals.old table.now) active
        (held places.old codes.old values.old opens.old nexts.old)) }
    ensures maximum { memory.new.maximum ≡ memory.old.maximum }
    ensures answered { let before = held places.old codes.old values.old opens.old nexts.old in
        let after = held places.new codes.new values.new opens.new nexts.new in
        let store = store_of memory.old.bytes globals.old table.now in
        let outcome = unit_at program.now pages (spot_at program.now store active.entry before) in
        Answered program.now outcome store (store_of memory.new.bytes globals.new table.now) before after result }
{
    let again = active.hot.code;
    let Some((instr, rest)) = again.split_first() else {
        return leave_level(active, values, opens, nexts, places, codes);
    };
    let behind = Active {
        hot: Hot {
            code: rest,
            marks: active.hot.marks,
            low: active.hot.low,
        },
        function: active.function,
        gives: active.gives,
    };
    match instr {
        Instr::Unreachable => Turn::Trapped(Trap::Unreachable),
        Instr::Block(leaves, body) => open_block(behind, values, *leaves, body, opens, nexts),
        Instr::Loop(leaves, body) => open_loop(again, behind, values, *leaves, body, opens, nexts),
        Instr::If(leaves, first, second) => open_if(
            behind, values, *leaves, first, second, opens, nexts,
        ),
        Instr::Br(label) => jump(behind, values, *label as usize, opens, nexts, places, codes),
        Instr::BrIf(label) => jump_if(behind, values, *label, opens, nexts, places, codes),
        Instr::BrTable(labels, other) => jump_by(
            behind, values, labels, *other, opens, nexts, places, codes,
        ),
        Instr::Return => finish(behind, values, opens, nexts, places, codes),
        Instr::Call(index) => call(
            program,
            callees,
            behind,
            values,
            *index as usize,
            opens,
            nexts,
            places,
            codes,
        ),
        Instr::CallIndirect(kind) => {
            let at = top(values, behind.hot.marks);
            let popped = with_sp(behind, behind.hot.marks.sp - 1);
            call_through(
                program,
                callees,
                table,
                popped,
                values,
                at,
                *kind as usize,
                opens,
                nexts,
                places,
                codes,
            )
        }
        Instr::Nop
        | Instr::Drop
        | Instr::Select
        | Instr::LocalGet(_)
        | Instr::LocalSet(_)
        | Instr::LocalTee(_)
        | Instr::GlobalGet(_)
        | Instr::GlobalSet(_)
        | Instr::Load(..)
        | Instr::Store(..)
        | Instr::MemorySize
        | Instr::MemoryGrow
        | Instr::MemoryCopy
        | Instr::MemoryFill
        | Instr::I32Const(_)
        | Instr::I64Const(_)
        | Instr::Num(_) => moves(program, pages, memory, globals, values, behind, instr),
        Instr::FloatMemory(..) | Instr::F32Const(_) | Instr::F64Const(_) | Instr::FloatOp(_) =>
            unreachable!(),
    }
}

/// One unit under the limits of a thread: 65,536 values, 1,024 frames and 16,384 blocks.
#[inline(always)]
pub fn step<'m>(
    program: &'m Module,
    callees: &[Callee],
    table: &[Option<u32>],
    pages: u32,
    memory: &mut Memory,
    globals: &mut [u64],
    active: Active<'m>,
    values: &mut [u64],
    opens: &mut Stack<Open>,
    nexts: &mut Stack<&'m [Instr]>,
    places: &mut Stack<Place>,
    codes: &mut Stack<&'m [Instr]>,
) -> Turn<'m>
    requires valid { Valid program.now }
    requires callees { AreCallees program.now callees.now }
    requires maximum { page_limit program.now ≡ memory.old.maximum }
    requires stands { IsStanding active (held places.old codes.old values.old opens.old nexts.old) }
    requires placed { IsPlaced program.now active (held places.old codes.old values.old opens.old nexts.old) }
    requires of { IsOf program.now (thread_in program.now (store_of memory.old.bytes globals.old table.now) active
        (held places.old codes.old values.old opens.old nexts.old)) }
    requires bounded { IsBounded (held places.old codes.old values.old opens.old nexts.old) }
    ensures maximum { memory.new.maximum ≡ memory.old.maximum }
    ensures answered { let before = held places.old codes.old values.old opens.old nexts.old in
        let after = held places.new codes.new values.new opens.new nexts.new in
        let store = store_of memory.old.bytes globals.old table.now in
        let outcome = limited (unit_at program.now pages (spot_at program.now store active.entry before)) in
        Bounded program.now outcome store (store_of memory.new.bytes globals.new table.now) before after result }
{
    match unit(
        program, callees, table, pages, memory, globals, active, values, opens, nexts, places,
        codes,
    ) {
        Turn::Goes(now) => Turn::Goes(now),
        Turn::Grew(now) => {
            if opens.len() > 16_384 {
                return Turn::Trapped(Trap::Stack);
            }
            if places.len() > 1_023 {
                return Turn::Trapped(Trap::Stack);
            }
            Turn::Goes(now)
        }
        Turn::Trapped(trap) => Turn::Trapped(trap),
        Turn::Done => Turn::Done,
        Turn::Asks(name, now) => Turn::Asks(name, now),
        Turn::Full => {
            if values.len() == 65_536 {
                return Turn::Trapped(Trap::Stack);
            }
            Turn::Full
        }
        Turn::Cold => Turn::Cold,
        Turn::NoMemory => Turn::NoMemory,
    }
}
