//! Rounds of units.

ghost use Rattle.std.specs.Prelude.{◌≡◌, ◌-◌, ◌≤◌, length};
ghost use Rattle.wasm_ast.specs.Spaces.{page_limit};
ghost use Rattle.wasm_ast.specs.Validity.{Valid};
ghost use Rattle.wasm_semantics.specs.Units.{units_from};
ghost use Rattle.wasm_frames.specs.Standing.{held, store_of, thread_in};
ghost use Rattle.wasm_frames.specs.Callees.{AreCallees};
ghost use Rattle.wasm_exec.specs.Going.{IsGoing};
ghost use Rattle.wasm_exec.specs.Rounds.{Comes};

use wasm_ast::{HostName, Instr, Module};
use wasm_blocks::Open;
use wasm_frames::{Active, Callee, Place, Turn};
use wasm_memory::Memory;
use wasm_semantics::Trap;
use wasm_stack::Stack;
use wasm_units::step;

/// Why a round ended.
#[derive(Clone, Copy)]
pub(crate) enum Halt {
    /// All units are used.
    Spent,
    /// The last frame has ended.
    Done,
    /// The thread trapped.
    Trapped(Trap),
    /// The host is asked, and the frame waits.
    Asks(HostName),
    /// The array of values has no place for what the next unit leaves.
    Full,
    /// The next unit returns into a frame whose code is not at hand.
    Cold,
    /// Out of memory.
    NoMemory,
}

/// What a round came to: the frame that runs, how many units are used, and why it ended.
#[derive(Clone, Copy)]
pub(crate) struct Round<'m> {
    pub active: Active<'m>,
    pub used: u64,
    pub halt: Halt,
}

/// Takes units, of which some are used, up to a number of them.
fn go<'m>(
    program: &'m Module,
    callees: &[Callee],
    table: &[Option<u32>],
    pages: u32,
    memory: &mut Memory,
    globals: &mut [u64],
    active: Active<'m>,
    values: &mut [u64],
    opens: &mut Stack<Open>,
    nexts: &mut Stack<&'m [Instr]>,
    places: &mut Stack<Place>,
    codes: &mut Stack<&'m [Instr]>,
    used: u64,
    count: u64,
) -> Round<'m>
    requires valid { Valid program.now }
    requires callees { AreCallees program.now callees.now }
    requires maximum { page_limit program.now ≡ memory.old.maximum }
    requires going { IsGoing program.now (store_of memory.old.bytes globals.old table.now) active
        (held places.old codes.old values.old opens.old nexts.old) }
    requires order { used ≤ count }
    ensures maximum { memory.new.maximum ≡ memory.old.maximum }
    ensures least { used ≤ result.used }
    ensures most { result.used ≤ count }
    ensures comes { let before = held places.old codes.old values.old opens.old nexts.old in
        let after = held places.new codes.new values.new opens.new nexts.new in
        let thread = thread_in program.now (store_of memory.old.bytes globals.old table.now) active.entry before in
        let store = store_of memory.new.bytes globals.new table.now in
        let course = units_from program.now pages used (count - used) thread in
        Comes program.now pages count course used codes.old store after result.active result.used result.halt }
{
    let mut here = active;
    'units: for at in used..count {
        match step(
            program, callees, table, pages, memory, globals, here, values, opens, nexts, places,
            codes,
        ) {
            Turn::Goes(next) => here = next,
            Turn::Grew(_) => unreachable!(),
            Turn::Trapped(trap) => {
                return Round {
                    active: here,
                    used: at + 1,
                    halt: Halt::Trapped(trap),
                };
            }
            Turn::Done => {
                return Round {
                    active: here,
                    used: at + 1,
                    halt: Halt::Done,
                };
            }
            Turn::Asks(name, waits) => {
                return Round {
                    active: waits,
                    used: at + 1,
                    halt: Halt::Asks(name),
                };
            }
            Turn::Full => {
                return Round {
                    active: here,
                    used: at,
                    halt: Halt::Full,
                };
            }
            Turn::Cold => {
                return Round {
                    active: here,
                    used: at,
                    halt: Halt::Cold,
                };
            }
            Turn::NoMemory => {
                return Round {
                    active: here,
                    used: at,
                    halt: Halt::NoMemory,
                };
            }
        }
    }
    Round {
        active: here,
        used: count,
        halt: Halt::Spent,
    }
}

/// The same over arrays that are vectors between rounds.
pub(crate) fn go_on<'m>(
    program: &'m Module,
    callees: &[Callee],
    table: &[Option<u32>],
    pages: u32,
    memory: &mut Memory,
    globals: &mut Vec<u64>,
    active: Active<'m>,
    values: &mut Vec<u64>,
    opens: &mut Stack<Open>,
    nexts: &mut Stack<&'m [Instr]>,
    places: &mut Stack<Place>,
    codes: &mut Stack<&'m [Instr]>,
    used: u64,
    count: u64,
) -> Round<'m>
    requires valid { Valid program.now }
    requires callees { AreCallees program.now callees.now }
    requires maximum { page_limit program.now ≡ memory.old.maximum }
    requires going { IsGoing program.now (store_of memory.old.bytes globals.old.items table.now) active
        (held places.old codes.old values.old.items opens.old nexts.old) }
    requires order { used ≤ count }
    ensures maximum { memory.new.maximum ≡ memory.old.maximum }
    ensures least { used ≤ result.used }
    ensures most { result.used ≤ count }
    ensures size { length values.new.items ≡ length values.old.items }
    ensures comes { let before = held places.old codes.old values.old.items opens.old nexts.old in
        let after = held places.new codes.new values.new.items opens.new nexts.new in
        let thread = thread_in program.now (store_of memory.old.bytes globals.old.items table.now) active.entry before in
        let store = store_of memory.new.bytes globals.new.items table.now in
        let course = units_from program.now pages used (count - used) thread in
        Comes program.now pages count course used codes.old store after result.active result.used result.halt }
{
    go(
        program,
        callees,
        table,
        pages,
        memory,
        globals.as_mut_slice(),
        active,
        values.as_mut_slice(),
        opens,
        nexts,
        places,
        codes,
        used,
        count,
    )
}
