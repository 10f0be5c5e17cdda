//! Places in a module.

/// Where a module speaks of a float first: the number of a type, a global or a body, or of a segment in whose offset it does.
#[derive(Clone, Copy, Debug, PartialEq, Eq)]
pub enum FloatPlace {
    Types(u32),
    Globals(u32),
    Bodies(u32),
    Elements(u32),
    Data(u32),
}

/// An element segment or a data segment, by its number.
#[derive(Clone, Copy, Debug, PartialEq, Eq)]
pub enum SegmentPlace {
    Element(u32),
    Data(u32),
}
