//! Types of values.

ghost use Rattle.std.specs.Prelude.{◌≡◌};
ghost use Rattle.wasm_ast.specs.Hosts.{same_val_types};

/// The type of a value: an integer or a float of 32 or 64 bits. WebAssembly 1.0, 2.3.1.
#[derive(Clone, Copy, Debug, PartialEq, Eq)]
pub enum ValType {
    I32,
    I64,
    F32,
    F64,
}

/// The result of a block, if it has one. WebAssembly 1.0, 2.3.2.
pub type BlockType = Option<ValType>;

/// Whether two lists of types are the same.
pub fn same_types(types: &[ValType], others: &[ValType]) -> bool
    ensures { result ≡ same_val_types types.now others.now }
{
    types == others
}
