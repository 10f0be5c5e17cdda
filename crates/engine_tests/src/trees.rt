//! The readers of modules and of their members.

use crate::played::decoded;
use crate::valid;
use std::test::Fail;
use wasm_ast::{
    Body, Element, Export, ExportKind, FuncType, GlobalVar, Import, ImportKind, Instr, MemoryType,
    Module, Piece, Table, ValType, same_types,
};

fn is_func_type(func_type: &FuncType) -> bool {
    func_type.params() == [ValType::I32, ValType::F64].as_slice() && func_type.results().is_empty()
}

fn is_import(import: &Import) -> bool {
    import.module().as_slice() == b"trapeze".as_slice()
        && import.name().as_slice() == b"reply".as_slice()
        && *import.kind() == ImportKind::Function(1)
}

fn is_table(table: &Table) -> bool {
    table.minimum() == 1 && table.maximum() == Some(2)
}

fn is_memory(memory: &MemoryType) -> bool {
    memory.minimum() == 17 && memory.maximum().is_none()
}

fn is_global(global: &GlobalVar) -> bool {
    global.val_type() == ValType::I64
        && global.mutable()
        && matches!(global.initial().items(), [Instr::I32Const(7)])
}

fn is_export(export: &Export) -> bool {
    export.name().as_slice() == b"handle".as_slice()
        && *export.kind() == ExportKind::Function
        && export.index() == 2
}

fn is_element(element: &Element) -> bool {
    element.index() == 3
        && element.members().items() == [5, 6].as_slice()
        && matches!(element.offset().items(), [Instr::I32Const(8)])
}

fn is_piece(piece: &Piece) -> bool {
    piece.index() == 4
        && piece.bytes().as_slice() == b"alice".as_slice()
        && matches!(piece.offset().items(), [Instr::I32Const(9)])
}

fn is_body(body: &Body) -> bool {
    body.locals() == [ValType::I32].as_slice()
        && matches!(body.code().items(), [Instr::I32Const(1)])
}

/// Whether it has one of each of the first members, which is the one that the bytes say.
fn has_members(module: &Module) -> bool {
    let ([func_type], [import], [function]) = (module.types(), module.imports(), module.functions())
    else {
        return false;
    };
    is_func_type(func_type) && is_import(import) && *function == 6
}

/// Whether it has one of each of the limits and globals.
fn has_room(module: &Module) -> bool {
    let ([table], [memory], [global]) = (module.tables(), module.memories(), module.globals())
    else {
        return false;
    };
    is_table(table) && is_memory(memory) && is_global(global)
}

/// Whether it has one of each of the rest.
fn has_more_members(module: &Module) -> bool {
    let ([export], [element], [piece], [body]) = (
        module.exports(),
        module.elements(),
        module.pieces(),
        module.bodies(),
    ) else {
        return false;
    };
    is_export(export)
        && is_element(element)
        && is_piece(piece)
        && is_body(body)
        && module.start() == Some(3)
}

#[test]
fn the_members_of_a_module_are_read(rt: HostRuntime) -> Result<(), Fail> {
    let module = decoded(rt.alloc(), valid::EACH)?;
    assert!(rt; has_members(&module) && has_room(&module) && has_more_members(&module));
    Ok(())
}

#[test]
fn types_are_compared(rt: HostRuntime) {
    let pair = [ValType::I32, ValType::I64];
    assert!(rt; same_types(&pair, &[ValType::I32, ValType::I64]) && same_types(&[], &[]));
    assert!(rt; !same_types(&pair, &[ValType::I32, ValType::F32]));
    assert!(rt; !same_types(&pair, &[ValType::I32]) && !same_types(&[], &pair));
}
