//! Why bytes are not read.

ghost use Rattle.std.specs.Prelude.{◌≡◌};
ghost use Rattle.wasm_code.specs.declared.error.DecodeError.TheVariants.{NoMemory};

use std::alloc::{AllocError, AllocFailed};

/// Why bytes spell no module, no body or no expression.
#[derive(Clone, Copy, Debug, PartialEq, Eq)]
pub enum DecodeError {
    /// The offset in the file of the first field that cannot be read.
    Malformed(u32),
    /// The offset in the file of the opcode that would open block 513 of its expression.
    TooDeep(u32),
    /// The number of the first body that declares more than 1,024 locals, from 0.
    TooManyLocals(u32),
    NoMemory,
}

impl From<wasm_ast::NoMemory> for DecodeError {
    ghost from_gives = { λ _ e. e ≡ NoMemory };

    fn from(_error: wasm_ast::NoMemory) -> DecodeError {
        DecodeError::NoMemory
    }
}

impl From<AllocError> for DecodeError {
    ghost from_gives = { λ _ e. e ≡ NoMemory };

    fn from(_error: AllocError) -> DecodeError {
        DecodeError::NoMemory
    }
}

impl<T: Drop> From<AllocFailed<T>> for DecodeError {
    ghost from_gives = { λ _ e. e ≡ NoMemory };

    fn from(_error: AllocFailed<T>) -> DecodeError {
        DecodeError::NoMemory
    }
}
