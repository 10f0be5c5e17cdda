//! Memories of a few modules, with ample memory.

use crate::played::valid;
use crate::valid as modules;
use std::alloc::Global;
use std::test::Fail;
use wasm_memory::{Memory, OutOfBounds, StoreError};

/// A call of a memory, and what it answers.
enum Step {
    Size(u32),
    /// From base plus offset on, so many bytes.
    Load(u32, u32, u32, Result<u64, OutOfBounds>),
    /// The same, and the number that is stored.
    Store(u32, u32, u32, u64, Result<(), StoreError>),
    /// So many pages more, where there may be so many.
    Grow(u32, u32, Option<u32>),
    /// To a place, from a place, so many bytes.
    Copy(u32, u32, u32, Result<(), StoreError>),
    /// From a place on this byte, so many times.
    Fill(u32, u8, u32, Result<(), StoreError>),
    Put(u32, &'static [u8], Result<(), StoreError>),
    /// The four bytes from a place on.
    Four(u32, Result<[u8; 4], OutOfBounds>),
}

/// The number from base plus offset on; none where the width is none that a memory has.
fn loaded(memory: &Memory, base: u32, offset: u32, width: u32) -> Option<Result<u64, OutOfBounds>> {
    match width {
        1 => Some(memory.load(base, offset, 1)),
        2 => Some(memory.load(base, offset, 2)),
        4 => Some(memory.load(base, offset, 4)),
        8 => Some(memory.load(base, offset, 8)),
        _ => None,
    }
}

/// Stores a number of four bytes or of eight.
fn stored(
    memory: &mut Memory,
    base: u32,
    offset: u32,
    width: u32,
    value: u64,
) -> Result<(), StoreError> {
    if width == 4 {
        memory.store(base, offset, 4, value)
    } else {
        memory.store(base, offset, 8, value)
    }
}

/// The four bytes from a place on.
fn four(memory: &Memory, at: u32) -> Result<[u8; 4], OutOfBounds> {
    let mut bytes = [9; 4];
    memory.copy_out(at, &mut bytes)?;
    Ok(bytes)
}

/// Takes a step, and answers whether it came to what is wanted.
fn takes(memory: &mut Memory, step: &Step) -> bool {
    match step {
        Step::Size(want) => memory.size() == *want,
        Step::Load(base, offset, width, want) => {
            loaded(memory, *base, *offset, *width) == Some(*want)
        }
        Step::Store(base, offset, width, value, want) => {
            stored(memory, *base, *offset, *width, *value) == *want
        }
        Step::Grow(pages, limit, want) => memory.grow(*pages, *limit) == Ok(*want),
        Step::Copy(to, from, len, want) => memory.copy_within(*to, *from, *len) == *want,
        Step::Fill(at, value, len, want) => memory.fill(*at, *value, *len) == *want,
        Step::Put(at, bytes, want) => memory.copy_in(*at, bytes) == *want,
        Step::Four(at, want) => four(memory, *at) == *want,
    }
}

/// Whether the memory of a module answers each step as the step says.
fn plays(alloc: Global, module: &'static [u8], steps: &[Step]) -> Result<bool, Fail> {
    let module = valid(alloc, &[(module, 1)])?;
    let mut memory = Memory::fresh(alloc, module.module())?;
    for step in steps {
        if !takes(&mut memory, step) {
            return Ok(false);
        }
    }
    Ok(true)
}

/// Zeros and the segments in order, and growth as far as the maximum.
static LAID: [Step; 8] = [
    Step::Size(1),
    Step::Load(0, 0, 4, Ok(0)),
    Step::Load(4, 0, 4, Ok(0x7978_6261)),
    Step::Load(8, 0, 8, Ok(0)),
    Step::Grow(2, 256, None),
    Step::Grow(1, 256, Some(1)),
    Step::Load(4, 0, 4, Ok(0x7978_6261)),
    Step::Load(131_071, 0, 1, Ok(0)),
];

/// A module without a memory has no bytes, and they never grow.
static NONE: [Step; 3] = [
    Step::Size(0),
    Step::Grow(1, 256, None),
    Step::Grow(0, 256, Some(0)),
];

/// Loads and stores reach the end and no further, and numbers have each width.
static ENDS: [Step; 14] = [
    Step::Size(1),
    Step::Load(65_532, 0, 4, Ok(0)),
    Step::Load(65_533, 0, 4, Err(OutOfBounds)),
    Step::Load(u32::MAX, u32::MAX, 1, Err(OutOfBounds)),
    Step::Store(8, 0, 4, 258, Ok(())),
    Step::Load(9, 0, 1, Ok(1)),
    Step::Store(65_529, 0, 8, u64::MAX, Err(StoreError::Bounds)),
    Step::Load(65_528, 0, 8, Ok(0)),
    Step::Store(65_500, 28, 8, 0x8877_6655_4433_2211, Ok(())),
    Step::Load(65_528, 0, 1, Ok(0x11)),
    Step::Load(65_528, 0, 2, Ok(0x2211)),
    Step::Load(65_528, 0, 4, Ok(0x4433_2211)),
    Step::Load(65_528, 0, 8, Ok(0x8877_6655_4433_2211)),
    Step::Four(0, Ok([0; 4])),
];

/// Growth as far as the limit.
static GROWN: [Step; 6] = [
    Step::Grow(1, 2, Some(1)),
    Step::Grow(1, 2, None),
    Step::Grow(0, 2, Some(2)),
    Step::Grow(0, 1, None),
    Step::Grow(65_535, u32::MAX, None),
    Step::Grow(u32::MAX, u32::MAX, None),
];

/// Ranges are copied over themselves as the bytes stood before, and only inside.
static COPIED: [Step; 12] = [
    Step::Put(0, b"12345", Ok(())),
    Step::Copy(1, 0, 3, Ok(())),
    Step::Four(0, Ok(*b"1123")),
    Step::Four(2, Ok(*b"235\0")),
    Step::Put(0, b"12345", Ok(())),
    Step::Copy(0, 1, 3, Ok(())),
    Step::Four(0, Ok(*b"2344")),
    Step::Four(2, Ok(*b"445\0")),
    Step::Copy(65_535, 0, 2, Err(StoreError::Bounds)),
    Step::Copy(0, 65_535, 2, Err(StoreError::Bounds)),
    Step::Copy(65_537, 0, 0, Err(StoreError::Bounds)),
    Step::Copy(65_536, 65_536, 0, Ok(())),
];

/// Ranges are filled only inside, and bytes are put and taken only inside.
static FILLED: [Step; 11] = [
    Step::Fill(1, 7, 2, Ok(())),
    Step::Fill(65_535, 7, 2, Err(StoreError::Bounds)),
    Step::Fill(65_536, 7, 0, Ok(())),
    Step::Fill(65_537, 7, 0, Err(StoreError::Bounds)),
    Step::Four(0, Ok([0, 7, 7, 0])),
    Step::Four(2, Ok([7, 0, 0, 0])),
    Step::Put(65_533, &[9; 4], Err(StoreError::Bounds)),
    Step::Put(65_532, &[9; 4], Ok(())),
    Step::Four(4, Ok([0; 4])),
    Step::Four(65_533, Err(OutOfBounds)),
    Step::Load(65_532, 0, 4, Ok(0x0909_0909)),
];

#[test]
fn a_memory_begins_with_its_segments_and_grows_to_its_maximum(rt: HostRuntime) -> Result<(), Fail> {
    assert!(rt; plays(rt.alloc(), modules::LAID, &LAID)?);
    assert!(rt; plays(rt.alloc(), modules::NO_PAGES, &NONE)?);
    Ok(())
}

#[test]
fn loads_and_stores_and_growth_end_where_they_have_to(rt: HostRuntime) -> Result<(), Fail> {
    assert!(rt; plays(rt.alloc(), modules::IDLE, &ENDS)?);
    assert!(rt; plays(rt.alloc(), modules::IDLE, &GROWN)?);
    Ok(())
}

#[test]
fn ranges_are_copied_and_filled_only_inside(rt: HostRuntime) -> Result<(), Fail> {
    assert!(rt; plays(rt.alloc(), modules::IDLE, &COPIED)?);
    assert!(rt; plays(rt.alloc(), modules::IDLE, &FILLED)?);
    Ok(())
}
