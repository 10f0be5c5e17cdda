//! Runs, from rest to rest.

ghost use Rattle.std.specs.Prelude.{◌≡◌, ◌∷◌, ◌<◌, ◌≤◌, length, OnOk};
ghost use Rattle.wasm_ast.specs.Spaces.{page_limit};
ghost use Rattle.wasm_ast.specs.Validity.{Valid};
ghost use Rattle.wasm_semantics.specs.Units.{units};
ghost use Rattle.wasm_frames.specs.Standing.{store_of};
ghost use Rattle.wasm_frames.specs.Callees.{AreCallees};
ghost use Rattle.wasm_exec.specs.Resting.{thread_at_rest, CanGoOn, Rests, HasGrown};

use crate::asking::asked_at;
use crate::resting::{find_rest, running, waiting, warm};
use crate::rounds::{Halt, go_on};
use crate::stops::{Ran, Stop};
use std::alloc::{AllocError, Global};
use wasm_ast::Module;
use wasm_blocks::Open;
use wasm_frames::{Callee, Place};
use wasm_memory::Memory;
use wasm_stack::Stack;

/// What a run came to, and where the frame waits that ran last.
#[derive(Clone, Copy)]
pub(crate) struct Rested {
    pub place: Place,
    pub ran: Ran,
}

/// Makes room for more values, twice as many and some, but for no more than 65,536.
fn grow(values: &mut Vec<u64>) -> Result<(), AllocError>
    requires { length values.old.items < 65536 }
    ensures { OnOk result (HasGrown values.old.items values.new.items) }
{
    let len = (2 * values.len() + 64).min(65_536);
    values.resize(len, 0)
}

/// Takes units of a thread at rest, up to a number of them.
pub(crate) fn run_units(
    alloc: Global,
    program: &Module,
    callees: &[Callee],
    table: &[Option<u32>],
    pages: u32,
    memory: &mut Memory,
    globals: &mut Vec<u64>,
    place: Place,
    values: &mut Vec<u64>,
    opens: &mut Stack<Open>,
    places: &mut Stack<Place>,
    count: u64,
) -> Rested
    requires valid { Valid program.now }
    requires callees { AreCallees program.now callees.now }
    requires maximum { page_limit program.now ≡ memory.old.maximum }
    requires rests { CanGoOn program.now (store_of memory.old.bytes globals.old.items table.now) place
        places.old values.old.items opens.old }
    ensures maximum { memory.new.maximum ≡ memory.old.maximum }
    ensures within { result.ran.used ≤ count }
    ensures rests { let store = store_of memory.old.bytes globals.old.items table.now in
        let thread = thread_at_rest program.now store (place ∷ places.old) values.old.items opens.old in
        let store = store_of memory.new.bytes globals.new.items table.now in
        Rests program.now (units program.now pages thread count) store result.place places.new values.new.items opens.new
        result.ran.used result.ran.stop }
{
    let mut nexts = Stack::new(alloc);
    let mut codes = Stack::new(alloc);
    let Ok(code) = find_rest(program, place, opens, opens.len(), &mut nexts) else {
        return Rested {
            place,
            ran: Ran {
                used: 0,
                stop: Stop::NoMemory,
            },
        };
    };
    let mut here = running(place, code);
    let mut used = 0;
    'rounds: loop {
        let round = go_on(
            program, callees, table, pages, memory, globals, here, values, opens, &mut nexts,
            places, &mut codes, used, count,
        );
        here = round.active;
        used = round.used;
        let stop = match round.halt {
            Halt::Full => match grow(values) {
                Ok(()) => continue 'rounds,
                Err(_) => Stop::NoMemory,
            },
            Halt::Cold => match warm(
                program,
                here,
                values.as_slice(),
                opens,
                &mut nexts,
                places,
                &mut codes,
            ) {
                Ok(()) => continue 'rounds,
                Err(_) => Stop::NoMemory,
            },
            Halt::Spent => Stop::Spent,
            Halt::Done => Stop::Done,
            Halt::Trapped(trap) => Stop::Trapped(trap),
            Halt::Asks(name) => Stop::Call(asked_at(name, values.as_slice(), here.hot.marks.sp)),
            Halt::NoMemory => Stop::NoMemory,
        };
        return Rested {
            place: waiting(here),
            ran: Ran { used, stop },
        };
    }
}
