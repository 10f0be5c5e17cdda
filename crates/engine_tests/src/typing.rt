//! Typing of a body by itself, and the index spaces of a module.

use crate::codes;
use crate::played::{decoded, joined};
use std::alloc::Global;
use std::test::Fail;
use wasm_ast::{Body, FuncType, ImportKind, Instr, MemoryType, Module, NoMemory, Seq};
use wasm_typing::{function_type, imported_type_of, is_typed, memory_in, own_type_at, table_in};

/// A module that imports the nine host calls.
fn module_of(alloc: Global) -> Result<Module, Fail> {
    let bytes = joined(alloc, &[(codes::FRONT, 1), (codes::SPIN, 1)])?;
    Ok(decoded(alloc, bytes.as_slice())?)
}

/// Whether this code has a typing as a body of the module's first function, which takes nothing and leaves nothing.
fn has_typing(alloc: Global, module: &Module, code: Vec<Instr>) -> Result<bool, NoMemory> {
    let body = Body::new(Vec::new(alloc), Seq::new(code));
    match own_type_at(module, 0) {
        Some(signature) if signature.results().is_empty() => {
            is_typed(alloc, module, signature, &body)
        }
        _ => Ok(false),
    }
}

#[test]
fn an_opcode_that_is_no_operator_has_no_typing(rt: HostRuntime) -> Result<(), Fail> {
    let module = module_of(rt.alloc())?;
    assert!(rt; has_typing(rt.alloc(), &module, Vec::new(rt.alloc()))?);
    let code = vec![in rt.alloc(); Instr::I32Const(0), Instr::Num(0xC5), Instr::Drop]?;
    assert!(rt; !has_typing(rt.alloc(), &module, code)?);
    Ok(())
}

/// How many parameters a type has.
fn params(found: Option<&FuncType>) -> Option<usize> {
    match found {
        Some(func_type) => Some(func_type.params().len()),
        None => None,
    }
}

/// Whether functions are found by their index, of which imports count first.
fn finds_functions(module: &Module) -> bool {
    let memory = ImportKind::Memory(MemoryType::new(1, None));
    params(function_type(module, 1)) == Some(4)
        && params(function_type(module, 9)) == Some(0)
        && function_type(module, 11).is_none()
        && params(own_type_at(module, 1)) == Some(0)
        && own_type_at(module, 2).is_none()
        && params(imported_type_of(module, &ImportKind::Function(1))) == Some(2)
        && imported_type_of(module, &memory).is_none()
}

/// Whether its table and its memory are found.
fn finds_limits(module: &Module) -> bool {
    match (table_in(module), memory_in(module)) {
        (Some(table), Some(memory)) => table.minimum() == 3 && memory.maximum() == Some(3),
        _ => false,
    }
}

#[test]
fn members_are_found_by_their_index(rt: HostRuntime) -> Result<(), Fail> {
    let module = module_of(rt.alloc())?;
    assert!(rt; finds_functions(&module) && finds_limits(&module));
    Ok(())
}
