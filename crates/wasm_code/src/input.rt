//! What is left of a range of a file.

ghost use Rattle.std.specs.Prelude.{◌+◌, ◌≤◌, length};

/// The bytes up to the end of a range, and the offset in the file of the first.
#[derive(Clone, Copy)]
pub struct Input<'a> {
    pub rest: &'a [u8],
    pub at: u32,
    ghost in_range: { at + length rest.now ≤ 4294967295 },
}
