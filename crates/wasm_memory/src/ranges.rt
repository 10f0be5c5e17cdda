//! Ranges of a list of bytes.

ghost use Rattle.std.specs.Prelude.{◌≡◌, ◌+◌, ◌≤◌, length};
ghost use Rattle.wasm_ast.specs.Bytes.{placed, filled};

/// Puts these bytes in their place from here on.
pub(crate) fn put(bytes: &mut [u8], at: usize, from: &[u8])
    requires { at + length from.now ≤ length bytes.old }
    ensures { bytes.new ≡ placed bytes.old at from.now }
{
    bytes[at..at + from.len()].copy_from_slice(from);
}

/// Makes so many bytes from here on the same.
pub(crate) fn same(bytes: &mut [u8], at: usize, value: u8, len: usize)
    requires { at + len ≤ length bytes.old }
    ensures { bytes.new ≡ filled bytes.old at value len }
{
    bytes[at..at + len].fill(value);
}
