//! The memory that a module begins with.

ghost use Rattle.std.specs.Prelude.{◌≡◌, ◌+◌, ◌*◌, ◌≤◌, length, replicate, IfOk, IsTrue};
ghost use Rattle.wasm_ast.specs.declared.val_types.ValType.TheVariants.{I32};
ghost use Rattle.wasm_ast.specs.Spaces.{page_limit, first_pages, most_pages as most_pages_of};
ghost use Rattle.wasm_ast.specs.Structure.{constant, is_constant_of, constant_value as value_of_code};
ghost use Rattle.wasm_ast.specs.Validity.{Valid};
ghost use Rattle.wasm_ast.specs.Bytes.{placed, with_pieces, first_memory};

use crate::ranges::put;
use std::alloc::Global;
use wasm_ast::{MemoryType, Module, NoMemory, Piece, constant_value};

/// The most pages that a memory of the module may have: 0 without one.
pub(crate) fn greatest_pages(module: &Module) -> u32
    ensures { result ≡ page_limit module.now }
{
    match module.memories().first() {
        Some(limits) => most_pages(limits),
        None => 0,
    }
}

/// The most pages of such a memory.
fn most_pages(limits: &MemoryType) -> u32
    ensures { result ≡ most_pages_of limits.now }
{
    match limits.maximum() {
        Some(most) => most.min(65_536),
        None => 65_536,
    }
}

/// How many pages the memory begins with.
fn least_pages(module: &Module) -> u32
    ensures { result ≡ first_pages module.now }
{
    match module.memories().first() {
        Some(limits) => limits.minimum(),
        None => 0,
    }
}

/// Zeros, and the data segments in order.
pub(crate) fn first_bytes(alloc: Global, module: &Module) -> Result<Vec<u8>, NoMemory>
    requires { Valid module.now }
    ensures bytes { IfOk result (λ bytes. bytes.items ≡ first_memory module.now) }
    ensures len { IfOk result (λ bytes. length bytes.items ≡ first_pages module.now * 65536) }
{
    let len = least_pages(module) as usize * 65_536;
    let Ok(mut bytes) = Vec::from_elem(alloc, 0, len) else {
        return Err(NoMemory);
    };
    for piece in module.pieces() {
        lay(&mut bytes, piece);
    }
    Ok(bytes)
}

/// Lays a data segment on the bytes, which it does not pass.
fn lay(bytes: &mut Vec<u8>, piece: &Piece)
    requires { value_of_code piece.now.offset.items + length piece.now.bytes ≤ length bytes.old.items }
    ensures { bytes.new.items ≡ placed bytes.old.items (value_of_code piece.now.offset.items) piece.now.bytes }
{
    let at = constant_value(piece.offset().items()) as usize;
    put(bytes.as_mut_slice(), at, piece.bytes().as_slice());
}
