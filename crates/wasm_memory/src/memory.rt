//! Memories.

ghost use Rattle.std.specs.Prelude.{◌≡◌, ◌+◌, ◌*◌, ◌<◌, min, length, IfOk, OnErr, OnOk, IsTrue, IsSome, Ok, option_map, ok_or, unwrap_or};
ghost use Rattle.wasm_ast.specs.Spaces.{page_limit};
ghost use Rattle.wasm_ast.specs.Validity.{Valid};
ghost use Rattle.wasm_ast.specs.Bytes.{in_pages, first_memory};
ghost use Rattle.wasm_ast.specs.Memory.{memory_load, memory_store, memory_grow, memory_copy, memory_fill, memory_read, memory_write};
ghost use Rattle.wasm_memory.specs.Contents.{after, larger, refused, out_of_bounds, is_width};

use crate::access::{load1, load2, load4, load8, store1, store2, store4, store8};
use crate::errors::{OutOfBounds, StoreError};
use crate::fresh::{first_bytes, greatest_pages};
use crate::ranges::{put, same};
use std::alloc::Global;
use std::marker::Model;
use wasm_ast::{Module, NoMemory};

/// How many bytes a page has.
const PAGE: usize = 65_536;

/// The memory of a running module: its bytes, whole pages of 65,536, and the most pages that it may ever have. A module without a
/// memory has one without bytes, which never grows.
#[derive(Debug, Drop)]
pub struct Memory {
    bytes: Vec<u8>,
    maximum: u32,
}

impl Model for Memory {
    ghost use Rattle.wasm_memory.specs.Contents.{Contents, AreWholePages};

    ghost Value = { Contents };

    ghost view = { λ m. record { bytes = m.bytes.items; maximum = m.maximum } };

    ghost invariant = { λ m. AreWholePages m.bytes.items m.maximum };
}

impl Memory {
    /// The memory that a module begins with: zeros, and the data segments in order.
    pub fn fresh(alloc: Global, module: &Module) -> Result<Memory, NoMemory>
        requires { Valid module.now }
        ensures { IfOk result (λ memory. memory ≡ record { bytes = first_memory module.now; maximum = page_limit module.now }) }
    {
        let bytes = first_bytes(alloc, module)?;
        Ok(Memory {
            bytes,
            maximum: greatest_pages(module),
        })
    }

    /// The bytes.
    #[inline(always)]
    pub fn bytes(&self) -> &[u8]
        ensures { result.now ≡ self.now.bytes }
    {
        self.bytes.as_slice()
    }

    /// How many pages there are.
    pub fn size(&self) -> u32
        ensures { result ≡ in_pages self.now.bytes }
    {
        (self.bytes.len() / PAGE) as u32
    }

    /// The number that so many bytes are, from base plus offset on, the least significant byte first. The width is 1, 2, 4 or 8.
    ///
    /// # Errors
    ///
    /// `OutOfBounds` exactly where the range does not end inside the memory.
    #[inline(always)]
    pub fn load(&self, base: u32, offset: u32, width: u32) -> Result<u64, OutOfBounds>
        requires { IsTrue (is_width width) }
        ensures { result ≡ ok_or (memory_load self.now.bytes (base + offset) width) out_of_bounds }
    {
        let at = base as usize + offset as usize;
        let bytes = self.bytes.as_slice();
        let found = match width {
            1 => load1(bytes, at),
            2 => load2(bytes, at),
            4 => load4(bytes, at),
            _ => load8(bytes, at),
        };
        found.ok_or(OutOfBounds)
    }

    /// Puts so many low bytes of a number in their place, from base plus offset on. The width is 1, 2, 4 or 8.
    ///
    /// # Errors
    ///
    /// `Bounds` exactly where the range does not end inside the memory; nothing changes then. It is never out of memory.
    #[inline(always)]
    pub fn store(
        &mut self,
        base: u32,
        offset: u32,
        width: u32,
        value: u64,
    ) -> Result<(), StoreError>
        requires { IsTrue (is_width width) }
        ensures answer { result ≡ refused StoreError.Bounds (memory_store self.old.bytes (base + offset) width value) }
        ensures memory { self.new ≡ after self.old (memory_store self.old.bytes (base + offset) width value) }
    {
        let at = base as usize + offset as usize;
        let bytes = self.bytes.as_mut_slice();
        if at + width as usize > bytes.len() {
            return Err(StoreError::Bounds);
        }
        match width {
            1 => store1(bytes, at, value),
            2 => store2(bytes, at, value),
            4 => store4(bytes, at, value),
            _ => store8(bytes, at, value),
        }
        Ok(())
    }

    /// Adds pages of zeros and answers how many there were. None exactly where there would be more than `limit`, more than the
    /// module's maximum or more than 65,536, or any without a memory; nothing changes then.
    ///
    /// # Errors
    ///
    /// Out of memory; nothing changes.
    pub fn grow(&mut self, pages: u32, limit: u32) -> Result<Option<u32>, NoMemory>
        ensures answer { IfOk result (λ old. old ≡ option_map (λ _. in_pages self.old.bytes) (larger self.old pages limit)) }
        ensures memory { OnOk result (self.new ≡ after self.old (larger self.old pages limit)) }
        ensures err { OnErr result (self.new ≡ self.old) }
        ensures cause { OnErr result (IsSome (larger self.old pages limit)) }
    {
        let old = self.size();
        let most = limit.min(self.maximum);
        if u64::from(pages) + u64::from(old) > u64::from(most) {
            return Ok(None);
        }
        let len = self.bytes.len() + pages as usize * PAGE;
        match self.bytes.resize(len, 0) {
            Ok(()) => Ok(Some(old)),
            Err(_) => Err(NoMemory),
        }
    }

    /// Copies bytes out, as many as `into` has.
    ///
    /// # Errors
    ///
    /// `OutOfBounds` exactly where the range does not end inside the memory; nothing changes then.
    pub fn copy_out(&self, at: u32, into: &mut [u8]) -> Result<(), OutOfBounds>
        ensures answer { result ≡ refused out_of_bounds (memory_read self.now.bytes at (length into.old)) }
        ensures bytes { into.new ≡ unwrap_or (memory_read self.now.bytes at (length into.old)) into.old }
    {
        let at = at as usize;
        if at + into.len() > self.bytes.len() {
            return Err(OutOfBounds);
        }
        into.copy_from_slice(&self.bytes[at..at + into.len()]);
        Ok(())
    }

    /// Copies these bytes in.
    ///
    /// # Errors
    ///
    /// `Bounds` exactly where the range does not end inside the memory; nothing changes then. It is never out of memory.
    pub fn copy_in(&mut self, at: u32, from: &[u8]) -> Result<(), StoreError>
        ensures answer { result ≡ refused StoreError.Bounds (memory_write self.old.bytes at from.now) }
        ensures memory { self.new ≡ after self.old (memory_write self.old.bytes at from.now) }
    {
        let at = at as usize;
        if at + from.len() > self.bytes.len() {
            return Err(StoreError::Bounds);
        }
        put(self.bytes.as_mut_slice(), at, from);
        Ok(())
    }

    /// Copies bytes from one place of the memory to another, as they stood before.
    ///
    /// # Errors
    ///
    /// `Bounds` exactly where one of the ranges does not end inside the memory, also for a length of 0; nothing changes then. It is
    /// never out of memory.
    pub fn copy_within(&mut self, to: u32, from: u32, len: u32) -> Result<(), StoreError>
        ensures answer { result ≡ refused StoreError.Bounds (memory_copy self.old.bytes to from len) }
        ensures memory { self.new ≡ after self.old (memory_copy self.old.bytes to from len) }
    {
        let (to, from, len) = (to as usize, from as usize, len as usize);
        if from + len > self.bytes.len() || to + len > self.bytes.len() {
            return Err(StoreError::Bounds);
        }
        self.bytes.copy_within(from..from + len, to);
        Ok(())
    }

    /// Makes each byte of a range the same.
    ///
    /// # Errors
    ///
    /// `Bounds` exactly where the range does not end inside the memory, also for a length of 0; nothing changes then. It is never
    /// out of memory.
    pub fn fill(&mut self, at: u32, value: u8, len: u32) -> Result<(), StoreError>
        ensures answer { result ≡ refused StoreError.Bounds (memory_fill self.old.bytes at value len) }
        ensures memory { self.new ≡ after self.old (memory_fill self.old.bytes at value len) }
    {
        let (at, len) = (at as usize, len as usize);
        if at + len > self.bytes.len() {
            return Err(StoreError::Bounds);
        }
        same(self.bytes.as_mut_slice(), at, value, len);
        Ok(())
    }
}
