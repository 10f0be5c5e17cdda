//! The frames that a module begins with.

ghost use Rattle.std.specs.Prelude.{ℕ, ◌≡◌, ◌+◌, ◌≤◌, Some, length, option_to_list, IfOk, IfSome, IsTrue};
ghost use Rattle.wasm_ast.specs.Spaces.{type_of};
ghost use Rattle.wasm_ast.specs.Structure.{is_entry_type};
ghost use Rattle.wasm_ast.specs.Validity.{Valid, handle_of};
ghost use Rattle.wasm_frames.specs.Callees.{IsEntry, AreCallees};
ghost use Rattle.wasm_frames.specs.Resting.{body_of};
ghost use Rattle.wasm_exec.specs.Starting.{AreFirst};

use crate::codes::body_code;
use std::alloc::{AllocError, Global};
use wasm_ast::Module;
use wasm_data::Marks;
use wasm_frames::{Callee, Entry, Place, Runs};
use wasm_stack::Stack;

/// The frame that runs first, and the one that waits for it, if there is one.
#[derive(Clone, Copy)]
pub(crate) struct FirstFrames {
    pub place: Place,
    pub below: Option<Place>,
}

/// What a call needs of a function of type [] to [], which the module defines.
fn entry_at(program: &Module, index: u32, callees: &[Callee]) -> Entry
    requires valid { Valid program.now }
    requires callees { AreCallees program.now callees.now }
    requires entry { IsTrue (is_entry_type (type_of program.now index)) }
    ensures { (params : ℕ) × IsEntry program.now index params result }
{
    match callees[index as usize].runs {
        Runs::Own(entry) => entry,
        Runs::Host(_) => unreachable!(),
    }
}

/// A frame of a function without arguments, with its first local here.
fn first_place(program: &Module, entry: Entry, base: usize) -> Place
    requires { base + entry.declared ≤ 65536 }
    ensures { let sp = base + entry.declared in result ≡ record {
      marks = record { base = base; floor = sp; sp = sp };
      left = length (body_of program.now entry.function);
      low = 0;
      function = entry.function;
      gives = entry.gives;
    } }
{
    let sp = base + entry.declared;
    Place {
        marks: Marks {
            base,
            floor: sp,
            sp,
        },
        left: body_code(program, entry.function).len(),
        low: 0,
        function: entry.function,
        gives: entry.gives,
    }
}

/// The frame of `handle`, and over it that of the start function, where there is one. None where they have more than 65,536 locals.
pub(crate) fn first_frames(program: &Module, handle: u32, callees: &[Callee]) -> Option<FirstFrames>
    requires valid { Valid program.now }
    requires handle { handle_of program.now ≡ Some handle }
    requires callees { AreCallees program.now callees.now }
    ensures { IfSome result (λ f. AreFirst program.now f.place (option_to_list f.below)) }
{
    let entry = entry_at(program, handle, callees);
    if entry.declared > 65_536 {
        return None;
    }
    let first = first_place(program, entry, 0);
    let Some(index) = program.start() else {
        return Some(FirstFrames {
            place: first,
            below: None,
        });
    };
    let start = entry_at(program, index, callees);
    if start.declared > 65_536 - entry.declared {
        return None;
    }
    Some(FirstFrames {
        place: first_place(program, start, entry.declared),
        below: Some(first),
    })
}

/// The frames that wait at first, on a stack.
///
/// # Errors
///
/// Out of memory.
pub(crate) fn waiting_places(
    alloc: Global,
    below: Option<Place>,
) -> Result<Stack<Place>, AllocError>
    ensures { IfOk result (λ places. places ≡ option_to_list below) }
{
    let mut places = Stack::new(alloc);
    if let Some(place) = below {
        places.push(place)?;
    }
    Ok(places)
}
