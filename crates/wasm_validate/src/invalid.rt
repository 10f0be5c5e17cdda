//! Why a module is refused.

use wasm_ast::{FloatPlace, SegmentPlace};

/// The first test that a module fails, or that it is out of memory. The tests come in the order of the variants.
#[derive(Clone, Copy, Debug, PartialEq, Eq)]
pub enum Invalid {
    /// A float type or a float instruction stands there first.
    Float(FloatPlace),
    /// This import is the first that is no host call of its type.
    Import(u32),
    /// This rule of structure is the first that fails, counted from 1.
    Structure(u8),
    /// No export `handle` is a function of type [] to [].
    NoHandle,
    /// This segment is the first that ends past what it fills, elements before data.
    Segment(SegmentPlace),
    /// This body is the first without a typing.
    IllTyped(u32),
    /// No memory was left; nothing is said of the module.
    NoMemory,
}
