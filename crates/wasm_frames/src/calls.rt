//! Calls.

ghost use Rattle.std.specs.Prelude.{◌≡◌, ◌<◌, ◌≤◌, Some, length, slice_get};
ghost use Rattle.wasm_ast.specs.declared.func_types.FuncType.{FuncType as Signature};
ghost use Rattle.wasm_semantics.specs.Threads.{Store};
ghost use Rattle.wasm_semantics.specs.Control.{call as called, indirect as called_through};
ghost use Rattle.wasm_frames.specs.Standing.{held, spot_at, IsStanding, IsPlaced};
ghost use Rattle.wasm_frames.specs.Callees.{AreCallees, HasArguments, AreTypes};
ghost use Rattle.wasm_frames.specs.Turns.{Answered};

use crate::active::{Active, Place};
use crate::callees::{Callee, Entry, Runs, same_signature};
use crate::turns::Turn;
use wasm_ast::{Instr, Module};
use wasm_blocks::{Hot, Open};
use wasm_data::open_frame;
use wasm_semantics::Trap;
use wasm_stack::Stack;

/// The frame with the free places from here on.
#[inline(always)]
pub fn with_sp<'m>(active: Active<'m>, sp: usize) -> Active<'m>
    ensures { let a = active.entry in result ≡ record {
      hot = record {
        code = a.hot.code;
        marks = record { base = a.hot.marks.base; floor = a.hot.marks.floor; sp = sp };
        low = a.hot.low;
      };
      function = a.function;
      gives = a.gives;
    } }
{
    Active {
        hot: Hot {
            code: active.hot.code,
            marks: active.hot.marks.raised(sp),
            low: active.hot.low,
        },
        function: active.function,
        gives: active.gives,
    }
}

/// Calls the function with this index.
#[inline(always)]
pub fn call<'m>(
    program: &'m Module,
    callees: &[Callee],
    active: Active<'m>,
    values: &mut [u64],
    index: usize,
    opens: &Stack<Open>,
    nexts: &Stack<&'m [Instr]>,
    places: &mut Stack<Place>,
    codes: &mut Stack<&'m [Instr]>,
) -> Turn<'m>
    requires callees { AreCallees program.now callees.now }
    requires there { index < length callees.now }
    requires stands { IsStanding active (held places.old codes.old values.old opens.now nexts.now) }
    requires takes { HasArguments callees.now index active values.old opens.now }
    ensures { (store : Store) →
        let before = held places.old codes.old values.old opens.now nexts.now in
        let after = held places.new codes.new values.new opens.now nexts.now in
        let p = spot_at program.now store active.entry before in
        let outcome = called program.now index p p.level.values in
        IsPlaced program.now active.entry before → Answered program.now outcome store store before after result }
{
    let callee = callees[index];
    let marks = active.hot.marks;
    match callee.runs {
        Runs::Host(name) => Turn::Asks(name, with_sp(active, marks.sp - callee.params)),
        Runs::Own(entry) => {
            if entry.declared > values.len() - marks.sp {
                return Turn::Full;
            }
            let place = Place {
                marks: marks.raised(marks.sp - callee.params),
                left: active.hot.code.len(),
                low: active.hot.low,
                function: active.function,
                gives: active.gives,
            };
            let Some(body) = program.bodies().get(entry.function) else {
                unreachable!();
            };
            let Ok(()) = places.push(place) else {
                return Turn::NoMemory;
            };
            let Ok(()) = codes.push(active.hot.code) else {
                return Turn::NoMemory;
            };
            Turn::Grew(Active {
                hot: Hot {
                    code: body.code().items(),
                    marks: open_frame(values, marks, callee.params, entry.declared),
                    low: opens.len(),
                },
                function: entry.function,
                gives: entry.gives,
            })
        }
    }
}

/// The entry of a table at a place, where it has one.
#[inline(always)]
fn entry_at(table: &[Option<u32>], at: u64) -> Option<Option<u32>>
    ensures { result ≡ slice_get table.now at }
{
    if at < table.len() as u64 {
        Some(table[at as usize])
    } else {
        None
    }
}

/// Calls the function that an entry of the table names, which must have this type.
#[inline(always)]
pub fn call_through<'m>(
    program: &'m Module,
    callees: &[Callee],
    table: &[Option<u32>],
    active: Active<'m>,
    values: &mut [u64],
    at: u64,
    kind: usize,
    opens: &Stack<Open>,
    nexts: &Stack<&'m [Instr]>,
    places: &mut Stack<Place>,
    codes: &mut Stack<&'m [Instr]>,
) -> Turn<'m>
    requires callees { AreCallees program.now callees.now }
    requires kind { kind < length program.now.types }
    requires stands { IsStanding active (held places.old codes.old values.old opens.now nexts.now) }
    requires types { AreTypes program.now callees.now kind table.now at active values.old opens.now }
    ensures { (store : Store) →
        let before = held places.old codes.old values.old opens.now nexts.now in
        let after = held places.new codes.new values.new opens.now nexts.now in
        let p = spot_at program.now store active.entry before in
        IsPlaced program.now active.entry before →
        (wanted : Signature) → slice_get program.now.types kind ≡ Some wanted →
        let outcome = called_through program.now wanted p p.level.values (slice_get table.now at) in
        Answered program.now outcome store store before after result }
{
    let Some(entry) = entry_at(table, at) else {
        return Turn::Trapped(Trap::Table);
    };
    let Some(index) = entry else {
        return Turn::Trapped(Trap::Empty);
    };
    let Some(found) = program.types().get(callees[index as usize].signature) else {
        unreachable!();
    };
    let Some(wanted) = program.types().get(kind) else {
        unreachable!();
    };
    if !same_signature(found, wanted) {
        return Turn::Trapped(Trap::TypeDiffers);
    }
    call(
        program,
        callees,
        active,
        values,
        index as usize,
        opens,
        nexts,
        places,
        codes,
    )
}
