//! Machines.

ghost use Rattle.std.specs.Prelude.{◌≡◌, ◌≤◌, IfOk, is_some, unwrap_or, Option};
ghost use Rattle.wasm_ast.specs.declared.modules.Module.{Module as Program};
ghost use Rattle.wasm_ast.specs.declared.hosts.HostName.{HostName as Name};
ghost use Rattle.wasm_ast.specs.Memory.{memory_write};
ghost use Rattle.wasm_memory.specs.Contents.{after, refused};
ghost use Rattle.wasm_semantics.specs.Units.{units as units_of, with_memory, answered};
ghost use Rattle.wasm_semantics.specs.Begin.{begin as beginning};
ghost use Rattle.wasm_exec.specs.Asking.{has_answer};
ghost use Rattle.wasm_exec.specs.Machines.{memory_in, thread_of, IsReady, IsWaiting, StopsAs};

use crate::answering::put_answer;
use crate::beginnings::{globals_at_first, table_at_first};
use crate::callees::callees;
use crate::runs::run_units;
use crate::starting::{first_frames, waiting_places};
use crate::stops::Ran;
use std::alloc::Global;
use wasm_ast::{HostName, NoMemory};
use wasm_blocks::Open;
use wasm_frames::{Callee, Place};
use wasm_memory::{Memory, StoreError};
use wasm_stack::Stack;
use wasm_validate::ValidModule;

/// A thread of a module: its memory, globals and table, and its frames by numbers alone, whose values lie in one array.
#[derive(Drop)]
pub struct Machine {
    alloc: Global,
    memory: Memory,
    globals: Vec<u64>,
    table: Vec<Option<u32>>,
    callees: Vec<Callee>,
    values: Vec<u64>,
    opens: Stack<Open>,
    places: Stack<Place>,
    place: Place,
    waits_for: Option<HostName>,
}

impl Machine {
    /// The thread that a module begins with.
    ///
    /// # Errors
    ///
    /// Out of memory; also where the first frames have more than 65,536 locals, which those of a decoded module never have.
    pub fn begin(alloc: Global, module: &ValidModule) -> Result<Machine, NoMemory>
        ensures { IfOk result (λ x. (thread_of module.now x ≡ beginning module.now) × IsReady module.now x) }
    {
        let program = module.module();
        let memory = Memory::fresh(alloc, program)?;
        let Ok(globals) = globals_at_first(alloc, program) else {
            return Err(NoMemory);
        };
        let Ok(table) = table_at_first(alloc, program) else {
            return Err(NoMemory);
        };
        let Ok(callees) = callees(alloc, program) else {
            return Err(NoMemory);
        };
        let Some(first) = first_frames(program, module.handle(), callees.as_slice()) else {
            return Err(NoMemory);
        };
        let Ok(places) = waiting_places(alloc, first.below) else {
            return Err(NoMemory);
        };
        let Ok(values) = Vec::from_elem(alloc, 0, first.place.marks.sp) else {
            return Err(NoMemory);
        };
        Ok(Machine {
            alloc,
            memory,
            globals,
            table,
            callees,
            values,
            opens: Stack::new(alloc),
            places,
            place: first.place,
            waits_for: None,
        })
    }

    /// Takes units, up to a number of them, where the memory may have so many pages.
    pub fn run(&mut self, module: &ValidModule, pages: u32, units: u64) -> Ran
        requires { IsReady module.now self.old }
        ensures within { result.used ≤ units }
        ensures stops { StopsAs module.now (units_of module.now pages (thread_of module.now self.old) units)
            result.used result.stop self.new }
    {
        let rested = run_units(
            self.alloc,
            module.module(),
            self.callees.as_slice(),
            self.table.as_slice(),
            pages,
            &mut self.memory,
            &mut self.globals,
            self.place,
            &mut self.values,
            &mut self.opens,
            &mut self.places,
            units,
        );
        self.place = rested.place;
        self.waits_for = rested.ran.stop.call();
        rested.ran
    }

    /// Answers the call that the thread waits for, with a value exactly where the call has a result. Takes no memory.
    pub fn resume(&mut self, answer: Option<u32>)
        ensures thread { (m : Program) (h : Name) → IsWaiting m h self.old → is_some answer ≡ has_answer h →
            thread_of m self.new ≡ answered (thread_of m self.old) answer }
        ensures ready { (m : Program) (h : Name) → IsWaiting m h self.old → is_some answer ≡ has_answer h → IsReady m self.new }
    {
        self.place = put_answer(&mut self.values, self.place, answer);
        self.waits_for = None;
    }

    /// Its memory.
    pub fn memory(&self) -> &Memory
        ensures is { result.now ≡ memory_in self.now }
        ensures thread { (m : Program) → (thread_of m self.now).store.memory ≡ result.now.bytes }
    {
        &self.memory
    }

    /// Copies these bytes into its memory. Takes no memory.
    ///
    /// # Errors
    ///
    /// `Bounds` exactly where the range does not end inside the memory; nothing changes then.
    pub fn put(&mut self, at: u32, from: &[u8]) -> Result<(), StoreError>
        ensures answer { result ≡ refused StoreError.Bounds (memory_write (memory_in self.old).bytes at from.now) }
        ensures memory { memory_in self.new ≡ after (memory_in self.old) (memory_write (memory_in self.old).bytes at from.now) }
        ensures thread { (m : Program) → thread_of m self.new ≡ with_memory (thread_of m self.old) (memory_in self.new).bytes }
        ensures ready { (m : Program) → IsReady m self.old → IsReady m self.new }
        ensures waits { (m : Program) (h : Name) → IsWaiting m h self.old → IsWaiting m h self.new }
    {
        self.memory.copy_in(at, from)
    }
}
