//! Frames that wait, by their numbers, and as they run.

ghost use Rattle.std.specs.Prelude.{◌≡◌, ◌≤◌, length, IfOk, OnOk};
ghost use Rattle.wasm_data.specs.Cuts.{above, under};
ghost use Rattle.wasm_frames.specs.Resting.{body_of};
ghost use Rattle.wasm_frames.specs.Standing.{held, IsStanding, IsPlaced};
ghost use Rattle.wasm_frames.specs.Turns.{IsCold};
ghost use Rattle.wasm_exec.specs.Codes.{HasLaid};
ghost use Rattle.wasm_exec.specs.Going.{active_at, place_of, code_at, HasWarmed};

use crate::codes::{find_code, last_of};
use std::alloc::AllocError;
use wasm_ast::{Instr, Module};
use wasm_blocks::{Hot, Open};
use wasm_frames::{Active, Place};
use wasm_stack::Stack;

/// The frame at a place, which runs with this code.
pub(crate) fn running(place: Place, code: &[Instr]) -> Active<'_>
    ensures { result ≡ active_at place code.entry }
{
    Active {
        hot: Hot {
            code,
            marks: place.marks,
            low: place.low,
        },
        function: place.function,
        gives: place.gives,
    }
}

/// Where a frame that runs waits.
pub(crate) fn waiting(active: Active) -> Place
    ensures { result ≡ place_of active.entry }
{
    Place {
        marks: active.hot.marks,
        left: active.hot.code.len(),
        low: active.hot.low,
        function: active.function,
        gives: active.gives,
    }
}

/// The code that remains of the frame at a place, whose blocks end at a height. What branches to them go on with is put on the stack.
///
/// # Errors
///
/// Out of memory: the stack is of no use any more.
pub(crate) fn find_rest<'m>(
    program: &'m Module,
    place: Place,
    opens: &Stack<Open>,
    high: usize,
    nexts: &mut Stack<&'m [Instr]>,
) -> Result<&'m [Instr], AllocError>
    requires order { place.low ≤ high }
    requires within { high ≤ length opens.now }
    ensures code { IfOk result (λ code. code.now ≡ code_at program.now place (under high opens.now)) }
    ensures nexts { OnOk result (HasLaid (body_of program.now place.function) (above place.low (under high opens.now))
        nexts.old nexts.new) }
{
    let code = find_code(program, place.function, opens, place.low, high, nexts)?;
    Ok(last_of(code, place.left))
}

/// Puts the code of the frame below at hand, which ran in an earlier run.
///
/// # Errors
///
/// Out of memory: the stacks are of no use any more.
pub(crate) fn warm<'m>(
    program: &'m Module,
    active: Active<'m>,
    values: &[u64],
    opens: &Stack<Open>,
    nexts: &mut Stack<&'m [Instr]>,
    places: &mut Stack<Place>,
    codes: &mut Stack<&'m [Instr]>,
) -> Result<(), AllocError>
    requires cold { IsCold (held places.old codes.old values.now opens.now nexts.old) }
    requires stands { IsStanding active (held places.old codes.old values.now opens.now nexts.old) }
    requires placed { IsPlaced program.now active (held places.old codes.old values.now opens.now nexts.old) }
    ensures { OnOk result (HasWarmed program.now active.entry (held places.old codes.old values.now opens.now nexts.old)
        (held places.new codes.new values.now opens.now nexts.new)) }
{
    let Some(below) = places.copy_at(0) else {
        unreachable!();
    };
    nexts.truncate(0);
    let code = find_rest(program, below, opens, active.hot.low, nexts)?;
    find_code(
        program,
        active.function,
        opens,
        active.hot.low,
        opens.len(),
        nexts,
    )?;
    codes.push(code)?;
    places.set(
        0,
        Place {
            marks: below.marks,
            left: code.len(),
            low: below.low,
            function: below.function,
            gives: below.gives,
        },
    );
    Ok(())
}
