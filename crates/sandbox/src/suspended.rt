//! Sandboxes that wait for the host.

ghost use Rattle.std.specs.Prelude.{◌≡◌, length, is_some, unwrap_or};
ghost use Rattle.wasm_ast.specs.declared.modules.Module.{Module};
ghost use Rattle.wasm_ast.specs.Memory.{memory_read, memory_write};
ghost use Rattle.wasm_memory.specs.Contents.{refused, out_of_bounds};
ghost use Rattle.wasm_semantics.specs.Units.{with_memory, answered};
ghost use Rattle.wasm_exec.specs.Asking.{has_answer};
ghost use Rattle.sandbox.specs.Threads.{thread_of, IsReady, waiting, IsWaiting, memory_of, asked_of};

use crate::sandboxes::Sandbox;
use wasm_exec::{Asked, Machine};
use wasm_memory::{OutOfBounds, StoreError};

/// A thread that waits for the answer of a host call. It is spent by one answer, or given up by a drop.
#[derive(Drop)]
pub struct Suspended {
    pub(crate) machine: Machine,
    pub(crate) asked: Asked,
}

impl Suspended {
    /// The call.
    pub fn asked(&self) -> Asked
        ensures { result ≡ asked_of self.now }
    {
        self.asked
    }

    /// How many bytes its memory has.
    pub fn memory_len(&self) -> u64
        ensures { result ≡ length (memory_of self.now) }
    {
        self.machine.memory().bytes().len() as u64
    }

    /// The memory is that of the thread that waits.
    pub fn memory_is(&self)
        ensures { (m : Module) → (waiting m self.now).store.memory ≡ memory_of self.now }
    {}

    /// Copies bytes out of its memory, as many as `into` has.
    ///
    /// # Errors
    ///
    /// `OutOfBounds` exactly where the range does not end inside the memory; nothing changes then.
    pub fn fetch(&self, at: u32, into: &mut [u8]) -> Result<(), OutOfBounds>
        ensures answer { result ≡ refused out_of_bounds (memory_read (memory_of self.now) at (length into.old)) }
        ensures bytes { into.new ≡ unwrap_or (memory_read (memory_of self.now) at (length into.old)) into.old }
    {
        self.machine.memory().copy_out(at, into)
    }

    /// Copies these bytes into its memory. Takes no memory.
    ///
    /// # Errors
    ///
    /// `Bounds` exactly where the range does not end inside the memory; nothing changes then.
    pub fn put(&mut self, at: u32, from: &[u8]) -> Result<(), StoreError>
        ensures answer { result ≡ refused StoreError.Bounds (memory_write (memory_of self.old) at from.now) }
        ensures thread { (m : Module) → waiting m self.new ≡
            with_memory (waiting m self.old) (unwrap_or (memory_write (memory_of self.old) at from.now) (memory_of self.old)) }
        ensures asked { asked_of self.new ≡ asked_of self.old }
        ensures kept { (m : Module) → IsWaiting m self.old → IsWaiting m self.new }
    {
        self.machine.put(at, from)
    }

    /// Answers the call, with a value exactly where it has a result. Takes no memory.
    pub fn answer(self, value: Option<u32>) -> Sandbox
        requires result { is_some value ≡ has_answer (asked_of self).name }
        ensures thread { (m : Module) → IsWaiting m self → thread_of m result ≡ answered (waiting m self) value }
        ensures kept { (m : Module) → IsWaiting m self → IsReady m result }
    {
        let Suspended {
            mut machine,
            asked: _,
        } = self;
        machine.resume(value);
        Sandbox { machine }
    }
}
