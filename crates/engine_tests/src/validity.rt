//! What no clause says: a small module for each test that a module can fail, modules that are accepted, and large ones.

use crate::played::{Part, joined, judged};
use crate::valid;
use std::alloc::Global;
use std::test::Fail;
use wasm_ast::HostName;
use wasm_validate::{FloatPlace, Invalid, SegmentPlace, ValidModule};

/// A module, and why it is refused, if it is.
type Row = (&'static [u8], Option<Invalid>);

/// Whether the module is refused for this, or accepted.
fn is_judged(alloc: Global, bytes: &[u8], want: Option<Invalid>) -> Result<bool, Fail> {
    Ok(judged(alloc, bytes)?.err() == want)
}

/// Whether each module is refused for what its row says, or accepted.
fn are_judged(alloc: Global, rows: &[Row]) -> Result<bool, Fail> {
    for (bytes, want) in rows {
        if !is_judged(alloc, bytes, *want)? {
            return Ok(false);
        }
    }
    Ok(true)
}

/// Bodies that have a typing, and bodies that have none.
static BODIES: [Row; 18] = [
    (valid::IDLE, None),
    (valid::DROP, Some(Invalid::IllTyped(0))),
    (valid::LEFT_OVER, Some(Invalid::IllTyped(0))),
    (valid::OTHER_LOCAL, Some(Invalid::IllTyped(0))),
    (valid::NO_LOCAL, Some(Invalid::IllTyped(0))),
    (valid::FIXED_GLOBAL, Some(Invalid::IllTyped(0))),
    (valid::NO_LABEL, Some(Invalid::IllTyped(0))),
    (valid::NO_FUNCTION, Some(Invalid::IllTyped(0))),
    (valid::NO_TABLE, Some(Invalid::IllTyped(0))),
    (valid::ALIGNED_TO_8, Some(Invalid::IllTyped(0))),
    (valid::NARROW_EXTENDED, Some(Invalid::IllTyped(0))),
    (valid::SECOND_BODY, Some(Invalid::IllTyped(1))),
    (valid::FILLED, None),
    (valid::CHOSEN, None),
    (valid::CHOSEN_OTHER, Some(Invalid::IllTyped(0))),
    (valid::BRANCHES, None),
    (valid::SIZE, None),
    (valid::SIZE_LEFT, Some(Invalid::IllTyped(0))),
];

#[test]
fn a_body_has_a_typing_or_is_named(rt: HostRuntime) -> Result<(), Fail> {
    assert!(rt; are_judged(rt.alloc(), &BODIES)?);
    Ok(())
}

/// Floats and imports: the first place that is refused.
static PLACES: [Row; 10] = [
    (
        valid::FLOAT_TYPE,
        Some(Invalid::Float(FloatPlace::Types(1))),
    ),
    (
        valid::FLOAT_GLOBAL,
        Some(Invalid::Float(FloatPlace::Globals(0))),
    ),
    (
        valid::FLOAT_ELEMENT,
        Some(Invalid::Float(FloatPlace::Elements(0))),
    ),
    (valid::FLOAT_DATA, Some(Invalid::Float(FloatPlace::Data(0)))),
    (
        valid::FLOAT_NESTED,
        Some(Invalid::Float(FloatPlace::Bodies(0))),
    ),
    (valid::IMPORT_RESULT, Some(Invalid::Import(1))),
    (valid::IMPORT_TYPE, Some(Invalid::Import(1))),
    (valid::IMPORT_TABLE, Some(Invalid::Import(1))),
    (valid::IMPORT_MEMORY, Some(Invalid::Import(1))),
    (valid::IMPORT_GLOBAL, Some(Invalid::Import(1))),
];

#[test]
fn the_first_float_and_the_first_import_that_is_no_host_call_are_named(
    rt: HostRuntime,
) -> Result<(), Fail> {
    assert!(rt; are_judged(rt.alloc(), &PLACES)?);
    Ok(())
}

/// The rules of structure by their numbers, the entry point, and the ends of segments.
static RULES: [Row; 19] = [
    (valid::LARGEST_TABLE, None),
    (valid::LARGER_TABLE, Some(Invalid::Structure(3))),
    (valid::TABLE_OVER, Some(Invalid::Structure(3))),
    (valid::MEMORY_OVER, Some(Invalid::Structure(4))),
    (valid::LARGER_MEMORY, Some(Invalid::Structure(4))),
    (valid::TWO_RESULTS, Some(Invalid::Structure(1))),
    (valid::NO_TYPE, Some(Invalid::Structure(2))),
    (valid::OTHER_VALUE, Some(Invalid::Structure(5))),
    (valid::NO_START, Some(Invalid::Structure(8))),
    (valid::NO_MEMORY_1, Some(Invalid::Structure(6))),
    (valid::SAME_NAMES, Some(Invalid::Structure(7))),
    (valid::HANDLE_MEMORY, Some(Invalid::NoHandle)),
    (valid::LAST_ELEMENT, None),
    (
        valid::PAST_ELEMENT,
        Some(Invalid::Segment(SegmentPlace::Element(0))),
    ),
    (valid::NO_ELEMENT, Some(Invalid::Structure(9))),
    (valid::LAST_DATA, None),
    (
        valid::PAST_DATA,
        Some(Invalid::Segment(SegmentPlace::Data(0))),
    ),
    (
        valid::PAST_ALL_DATA,
        Some(Invalid::Segment(SegmentPlace::Data(0))),
    ),
    (valid::WIDE_DATA, Some(Invalid::Structure(10))),
];

#[test]
fn the_rule_that_is_broken_is_named(rt: HostRuntime) -> Result<(), Fail> {
    assert!(rt; are_judged(rt.alloc(), &RULES)?);
    Ok(())
}

/// 100,000 targets that take the same, one more that does not, and a branch out of 512 blocks.
static LARGE: [(&[Part], Option<Invalid>); 3] = [
    (
        &[
            (valid::TARGETS, 1),
            (b"\x00", 100_001),
            (b"\x0b\x1a\x0b", 1),
        ],
        None,
    ),
    (
        &[
            (valid::TARGETS_1, 1),
            (b"\x00", 100_000),
            (b"\x01\x00\x0b\x1a\x0b", 1),
        ],
        Some(Invalid::IllTyped(0)),
    ),
    (
        &[
            (valid::BLOCKS, 1),
            (b"\x02\x40", 512),
            (b"\x0c\xff\x03", 1),
            (b"\x0b", 513),
        ],
        None,
    ),
];

#[test]
fn each_target_and_each_block_is_looked_at(rt: HostRuntime) -> Result<(), Fail> {
    for (parts, want) in &LARGE {
        let bytes = joined(rt.alloc(), parts)?;
        assert!(rt; is_judged(rt.alloc(), bytes.as_slice(), *want)?);
    }
    Ok(())
}

/// A module that exports its memory under 30,000 names of four bytes.
fn named(alloc: Global) -> Result<Vec<u8>, Fail> {
    let mut bytes = joined(alloc, &[(valid::NAMES, 1)])?;
    for number in 0..30_000_u32 {
        let (high, low) = ((number / 128) as u8, (number % 128) as u8);
        bytes.extend_from_slice(&[4, b'm', high / 128, high % 128, low, 2, 0])?;
    }
    bytes.extend_from_slice(valid::NAMED)?;
    Ok(bytes)
}

#[test]
fn names_are_told_apart(rt: HostRuntime) -> Result<(), Fail> {
    let bytes = named(rt.alloc())?;
    assert!(rt; is_judged(rt.alloc(), bytes.as_slice(), None)?);
    Ok(())
}

/// Whether it imports `input` and `reply`, and its function `handle` is the third.
fn is_built(module: &ValidModule) -> bool {
    module.module().imports().len() == 2
        && module.host(0) == HostName::Input
        && module.host(1) == HostName::Reply
        && module.handle() == 2
}

#[test]
fn the_built_module_is_accepted(rt: HostRuntime) -> Result<(), Fail> {
    let module = judged(rt.alloc(), valid::BUILT)??;
    assert!(rt; is_built(&module));
    Ok(())
}
